// The frame of a register block: service and callback taken, the call made.
use super::frame_out::FrameOut;
use super::table_frames::told_after;
use lent::Fields;

// A refused panel has no block.
pub fn panel(mut fields: Fields, out: &mut FrameOut) -> Option<()> {
    let service = fields.text()?;
    let callback = fields.text()?;
    fields.end()?;
    let mut block = [0u8; 512];
    let done = signon::panel(service, callback, &mut block);
    out.reply_panel(done, told_after(done, &block));
    Some(())
}
