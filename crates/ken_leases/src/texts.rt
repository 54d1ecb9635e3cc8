// The answers of a keeper.
ghost use Rattle.std.specs.Prelude.{◌≡◌, ◌+◌, ◌++◌, ◌≤◌, length};
ghost use Rattle.ken_model.specs.Orders.{IsNameLong};
ghost use Rattle.ken_leases.specs.Leases.{granted, held, lost, released, full};

use crate::blocks::Lease;
use arrayvec::ArrayVec;
use itoa::Buffer;

/// Room for an answer, and for the bytes of a lease.
pub(crate) const ROOM: usize = 96;

pub(crate) fn granted(name: &[u8], lease: Lease) -> ArrayVec<u8, ROOM>
    requires { IsNameLong name.now }
    ensures { result.items ≡ granted name.now lease }
{
    let mut text = ArrayVec::new();
    append(&mut text, b"granted ");
    append(&mut text, name);
    append(&mut text, b" ");
    append(&mut text, Buffer::new().format(lease.from).as_bytes());
    append(&mut text, b" ");
    append(&mut text, Buffer::new().format(lease.until).as_bytes());
    text
}

pub(crate) fn held(name: &[u8], until: u64) -> ArrayVec<u8, ROOM>
    requires { IsNameLong name.now }
    ensures { result.items ≡ held name.now until }
{
    let mut text = ArrayVec::new();
    append(&mut text, b"held ");
    append(&mut text, name);
    append(&mut text, b" ");
    append(&mut text, Buffer::new().format(until).as_bytes());
    text
}

pub(crate) fn lost(name: &[u8]) -> ArrayVec<u8, ROOM>
    requires { IsNameLong name.now }
    ensures { result.items ≡ lost name.now }
{
    let mut text = ArrayVec::new();
    append(&mut text, b"lost ");
    append(&mut text, name);
    text
}

pub(crate) fn released(name: &[u8]) -> ArrayVec<u8, ROOM>
    requires { IsNameLong name.now }
    ensures { result.items ≡ released name.now }
{
    let mut text = ArrayVec::new();
    append(&mut text, b"released ");
    append(&mut text, name);
    text
}

pub(crate) fn full(name: &[u8]) -> ArrayVec<u8, ROOM>
    requires { IsNameLong name.now }
    ensures { result.items ≡ full name.now }
{
    let mut text = ArrayVec::new();
    append(&mut text, b"full ");
    append(&mut text, name);
    text
}

/// Appends bytes for which there is room.
pub(crate) fn append(text: &mut ArrayVec<u8, ROOM>, bytes: &[u8])
    requires { length text.old.items + length bytes.now ≤ ROOM }
    ensures { text.new.items ≡ text.old.items ++ bytes.now }
{
    if text.try_extend_from_slice(bytes).is_err() {
        unreachable!()
    }
}
