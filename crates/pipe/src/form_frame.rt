// The frame of a form: its body and the sizes of the two buffers taken, the call made.
use super::frame_out::FrameOut;
use lent::Fields;

pub fn read_form(mut fields: Fields, out: &mut FrameOut) -> Option<()> {
    let body = fields.text()?;
    let username_size = fields.size(4096)?;
    let password_size = fields.size(4096)?;
    fields.end()?;
    let mut username = [0u8; 4096];
    let mut password = [0u8; 4096];
    let username = &mut username[..username_size];
    let password = &mut password[..password_size];
    let form = signon::read_form(body, username, password);
    out.reply_form(form, username, password);
    Some(())
}
