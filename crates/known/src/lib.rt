// The service that a request names, found in the register: its value is compared where it lies, and what is handed out is the register's
// own bytes, so that nobody decodes it.
#![tactic(auto)]

ghost use Rattle.std.specs.Prelude.{◌≡◌, ◌&&◌, eqb, ltb, length};
ghost use Rattle.protocol.specs.Register.{decode_register, callback_of};
ghost use Rattle.protocol.specs.Steps.{link_to};
ghost use Rattle.request.specs.Value.{text_of};
ghost use Rattle.known.specs.Standing.{standing};

use request::Spelling;

// The first block that has the service, if any. Not one function with `register::place_of`, which compares bytes where this decodes on the way:
// both are the library's `find` with a closure, and a function of both would hold that one line, with clauses on what is passed in.
fn standing(register: &[u8], service: Spelling<'_>) -> Option<usize>
    ensures { result ≡ standing (text_of service.entry) (decode_register register.now) }
{
    let m = register.len() / 512;
    (0..m).find(|k| service.is_text(register::service_at(register, *k)))
}

// The service where it is registered, else nothing. Nothing is an empty text: so in the meaning's `link_to`, and in its `callback_of` for the
// callback below; neither may change. Both functions find the block by `standing`, and each hands out another part of it.
#[tactic(auto, using(crate::proofs::Laws::place_inside))]
pub fn service_of<'a, 'b>(register: &'a [u8], service: Spelling<'b>) -> &'a [u8]
    ensures { result.now ≡ link_to (text_of service.entry) (decode_register register.now) }
{
    standing(register, service).map_or(b"", |k| register::service_at(register, k))
}

// Whether a service that is given, and found so, is unknown.
pub fn is_unknown(service: Spelling<'_>, found: &[u8]) -> bool
    ensures { result ≡ (ltb 0 service.entry.length && eqb (length found.now) 0) }
{
    !service.is_absent() & found.is_empty()
}

// The callback of a registered service, else nothing.
#[tactic(auto, using(crate::proofs::Laws::place_inside))]
pub fn callback_of<'a, 'b>(register: &'a [u8], service: Spelling<'b>) -> &'a [u8]
    ensures { result.now ≡ callback_of (text_of service.entry) (decode_register register.now) }
{
    standing(register, service).map_or(b"", |k| register::callback_at(register, k))
}
