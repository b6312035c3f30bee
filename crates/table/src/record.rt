// A record to be written.
ghost use Rattle.std.specs.Prelude.{◌≤◌, length};

use super::Fields;

// Its numbers, and as bytes its secret, its text and its IOU secret, each no longer than its place.
#[derive(Clone, Copy)]
pub struct Record<'a> {
    pub fields: Fields,
    pub secret: &'a [u8],
    pub text: &'a [u8],
    pub iou: &'a [u8],
    pub ghost secret_fits: { length secret.now ≤ 16 },
    pub ghost text_fits: { length text.now ≤ 200 },
    pub ghost iou_fits: { length iou.now ≤ 16 },
}
