// The frame of a question for a visit: the call made on the bytes that it names.
use super::frame_out::FrameOut;
use lent::{Fields, Kept, Question};

pub fn visit(table: &Kept<65536>, fields: Fields, out: &mut FrameOut) -> Option<()> {
    let question = Question::read(fields)?;
    let mut output = [0u8; 16384];
    let output = &mut output[..question.out];
    let visit = question.visit(table.bytes(), output);
    out.reply_visit(visit, output);
    Some(())
}
