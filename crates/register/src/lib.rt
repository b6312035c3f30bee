// The panel register: judged block by block, service and callback of a block handed out as parts of the register's own bytes, and a block
// made. A block: 0-1 and 2-3 lengths of service and callback, 4-203 service, 204-403 callback, rest zero before the
// check.
#![tactic(auto)]

ghost use Rattle.std.specs.Prelude.{◌≡◌, ◌+◌, ◌*◌, ◌/◌, ◌≤◌, length};
ghost use Rattle.protocol.specs.Bytes.{num, part};
ghost use Rattle.protocol.specs.Register.{address_right, entry_right, encode_entry, decode_entry, decode_register};
ghost use Rattle.protocol.specs.Register.{register_shape, register_lawful, registered};
ghost use Rattle.protocol.specs.Panels.{entry, panel_refusal, made, panel_of, panel_right, service_in, at_fault, fault_from, fault, fault_of};
ghost use Rattle.register.specs.Blockwise.{secure, rest_right, place_of, callback_in, if_below};
ghost use Rattle.protocol.specs.Refusals.{number_of_result};

use protocol::{Fault, Refusal};

// ---- the rules of an entry

// Bytes 33 to 126, no `#`.
#[tactic(auto, unfolding(protocol::specs::Register::address_right))]
fn address_right(s: &[u8]) -> bool
    ensures { result ≡ address_right s.now }
{
    block::all_within(s, 33, 126) & !text::has_byte(s, b'#')
}

// A callback that is not empty begins `https://`.
#[tactic(auto, using(crate::proofs::Laws::secure_none, crate::proofs::Laws::secure_some))]
fn is_secure(s: &[u8]) -> bool
    ensures { result ≡ secure s.now }
{
    s.is_empty() || s.starts_with(b"https://")
}

// A service of 1 to 200 bytes, a callback of at most 200. Here and where a block is made they are two parameters: `panel_of` and `panel_refusal` of
// protocol, which may not change, take the two apart, and so does who calls.
#[tactic(auto, unfolding(protocol::specs::Register::entry_right, crate::specs::Blockwise::secure))]
fn entry_right(service: &[u8], callback: &[u8]) -> bool
    ensures { result ≡ entry_right (entry service.now callback.now) }
{
    ((1 <= service.len()) & (service.len() <= 200))
        & (callback.len() <= 200)
        & address_right(service)
        & address_right(callback)
        & is_secure(callback)
}

// ---- one block

// A text of a block where it stands, by the field of its length. A length beyond the block reads to the block's end.
fn text_of<'a>(b: &'a [u8; 512], field: usize, at: usize) -> &'a [u8]
    requires { (field ≤ 2) × (at ≤ 204) }
    ensures { result.now ≡ part at (num field 2 b.now) b.now }
{
    let to = at + usize::from(block::read::<u16>(b, field));
    &b[at..to.min(512)]
}

#[tactic(auto, unfolding(protocol::specs::Register::decode_entry))]
fn service_of<'a>(b: &'a [u8; 512]) -> &'a [u8]
    ensures { result.now ≡ (decode_entry b.now).service }
{
    text_of(b, 0, 4)
}

#[tactic(auto, unfolding(protocol::specs::Register::decode_entry))]
fn callback_in<'a>(b: &'a [u8; 512]) -> &'a [u8]
    ensures { result.now ≡ (decode_entry b.now).callback }
{
    text_of(b, 2, 204)
}

// Behind texts of n and m bytes.
#[tactic(auto, using(crate::proofs::Laws::rest_as))]
fn rest_right(b: &[u8; 512], n: usize, m: usize) -> bool
    requires { (n ≤ 200) × (m ≤ 200) }
    ensures { result ≡ rest_right n m b.now }
{
    let service = 4 + n;
    let callback = 204 + m;
    block::block_ok(b, 0)
        & block::all_within(&b[service..204], 0, 0)
        & block::all_within(&b[callback..508], 0, 0)
}

#[tactic(auto, using(crate::proofs::Meaning::limit_service, crate::proofs::Meaning::limit_callback, crate::proofs::Meaning::block_no))]
fn block_right(b: &[u8; 512]) -> bool
    ensures { result ≡ panel_right b.now }
{
    let service = service_of(b);
    let callback = callback_in(b);
    entry_right(service, callback) && rest_right(b, service.len(), callback.len())
}

// ---- services

// Register and block are two parameters and no struct: `service_in` and `at_fault` of protocol, which may not change, take the two apart.

// The service of block k, where it stands.
#[tactic(auto, unfolding(protocol::specs::Panels::service_in))]
pub fn service_at<'a>(b: &'a [u8], k: usize) -> &'a [u8]
    requires { 512 * k + 512 ≤ length b.now }
    ensures { result.now ≡ service_in b.now k }
{
    service_of(block::block_at(b, k))
}

// And its callback.
#[tactic(auto, unfolding(crate::specs::Blockwise::callback_in))]
pub fn callback_at<'a>(b: &'a [u8], k: usize) -> &'a [u8]
    requires { 512 * k + 512 ≤ length b.now }
    ensures { result.now ≡ callback_in b.now k }
{
    callback_in(block::block_at(b, k))
}

// The first block that has a service. Not one function with the search of `known`, which decodes what it compares: both are the library's `find`.
fn place_of(b: &[u8], service: &[u8]) -> Option<usize>
    ensures { result ≡ if_below (length b.now / 512) (place_of service.now (decode_register b.now)) }
{
    let m = b.len() / 512;
    (0..m).find(|k| service == service_at(b, *k))
}

#[tactic(auto, using(crate::proofs::Laws::registered_some))]
fn registered(b: &[u8], service: &[u8]) -> bool
    ensures { result ≡ registered service.now (decode_register b.now) }
{
    place_of(b, service).is_some()
}

// ---- the judge

#[tactic(auto, unfolding(protocol::specs::Panels::at_fault))]
fn at_fault(b: &[u8], k: usize) -> bool
    requires { 512 * k + 512 ≤ length b.now }
    ensures { result ≡ at_fault b.now k }
{
    !block_right(block::block_at(b, k)) || registered(&b[..512 * k], service_at(b, k))
}

// The first block at fault.
fn first_fault(b: &[u8]) -> Option<usize>
    ensures { result ≡ if_below (length b.now / 512) (fault_from 0 (length b.now / 512) b.now) }
{
    let m = b.len() / 512;
    (0..m).find(|k| at_fault(b, *k))
}

// No one function for this and the ticket table's shape: `register_shape` and `table_shape` of protocol, which may not change, differ in their
// limits alone, and two functions that name these would still be left.
fn shape_right(n: usize) -> bool
    ensures { result ≡ register_shape n }
{
    (n % 512 == 0) & ((1 <= n / 512) & (n / 512 <= 16))
}

// A register at fault, refused with its block.
fn faulty(block: usize) -> Fault
    ensures { result ≡ fault 3 block }
{
    Fault {
        refusal: Refusal::Register.into(),
        block,
    }
}

// The refusal of a register, 3 or 0, and its first block at fault.
#[tactic(auto, using(crate::proofs::Laws::check_none), unfolding(protocol::specs::Panels::fault_of, protocol::specs::Register::register_lawful))]
pub fn check(b: &[u8]) -> Fault
    ensures { result ≡ fault_of b.now }
{
    if !shape_right(b.len()) {
        return faulty(0);
    }
    match first_fault(b) {
        Some(block) => faulty(block),
        None => Fault {
            refusal: 0,
            block: 0,
        },
    }
}

#[tactic(auto, using(crate::proofs::Laws::lawful_none), unfolding(protocol::specs::Register::register_lawful))]
pub fn register_lawful(b: &[u8]) -> bool
    ensures { result ≡ register_lawful b.now }
{
    shape_right(b.len()) && first_fault(b).is_none()
}

// ---- a block made

#[tactic(auto, unfolding(protocol::specs::Panels::panel_refusal))]
fn panel_refusal(service: &[u8], callback: &[u8], size: usize) -> Result<(), Refusal>
    ensures { number_of_result result ≡ panel_refusal service.now callback.now size }
{
    if !entry_right(service, callback) {
        return Err(Refusal::Register);
    }
    if size != 512 {
        return Err(Refusal::Sizes);
    }
    Ok(())
}

fn put_entry(b: &mut [u8; 512], service: &[u8], callback: &[u8])
    requires { (length service.now ≤ 200) × (length callback.now ≤ 200) }
    ensures { b.new ≡ encode_entry (entry service.now callback.now) }
{
    block::write(b, 0, service.len() as u16);
    block::write(b, 2, callback.len() as u16);
    block::pad_at(b, 4, 200, service);
    block::pad_at(b, 204, 304, callback);
    block::seal(b);
}

// The block of a service and a callback. Refused with 3 or 4.
#[tactic(auto, unfolding(protocol::specs::Panels::panel_of), using(crate::proofs::Making::panel_block, crate::proofs::Making::panel_service, crate::proofs::Making::panel_callback))]
pub fn panel(service: &[u8], callback: &[u8], block: &mut [u8]) -> Result<(), Refusal>
    ensures { made (number_of_result result) block.new ≡ panel_of service.now callback.now block.old }
{
    panel_refusal(service, callback, block.len())?;
    let b = block.first_chunk_mut().unwrap();
    put_entry(b, service, callback);
    Ok(())
}
