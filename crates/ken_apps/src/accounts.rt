// Accounts of a name and a balance, each in a block of its own.
ghost use Rattle.std.specs.Prelude.{◌≡◌, ◌+◌, ◌++◌, ◌≤◌, length, None, OnOk, IfOk, IsSome, MatchOption};
ghost use Rattle.ken_model.specs.Bank.{account, account_of, credit_text, with_balance};
ghost use Rattle.ken_model.specs.Heap.{IsHeap, first_gap};
ghost use Rattle.ken_model.specs.Orders.{IsNameLong};
ghost use Rattle.ken_apps.specs.Found.{IsAccountAt, with_pair};

use crate::pairs;
use arrayvec::ArrayVec;
use byteorder::{BigEndian, ByteOrder};
use itoa::Buffer;
use ken_alloc::Objects;
use std::alloc::AllocError;

/// How many bytes a balance takes.
const BALANCE: usize = 8;

/// Room for the bytes of an account, and for those of a credit.
const ROOM: usize = 80;

/// An account that was found.
#[derive(Clone, Copy)]
pub(crate) struct Account {
    pub place: u64,
    pub balance: u64,
}

/// The account of a name.
pub(crate) fn find(objects: &Objects, name: &[u8]) -> Option<Account>
    requires { IsNameLong name.now }
    ensures account { MatchOption result (account_of name.now objects.now.value.blocks ≡ None) (IsAccountAt name.now objects.now.value.blocks) }
    ensures heap { IsHeap objects.now.value }
{
    let place = pairs::find(objects, name)?;
    let before = name.len() + 1;
    if objects.len_of(place) != (before + BALANCE) as u64 {
        return None;
    }
    let mut bytes = [0; BALANCE];
    objects.read(place, before as u64, &mut bytes);
    Some(Account {
        place,
        balance: BigEndian::read_u64(&bytes),
    })
}

/// Makes an account in the first gap that it fits into: its place. After an error the heap is to be taken back.
pub(crate) fn open(
    objects: &mut Objects,
    name: &[u8],
    balance: u64,
) -> Result<Option<u64>, AllocError>
    requires heap { IsHeap objects.old.value }
    requires begun { IsSome objects.old.begun }
    requires name { IsNameLong name.now }
    ensures place { IfOk result (λ place. place ≡ first_gap objects.old.value (length name.now + 9)) }
    ensures value { IfOk result (λ place. objects.new.value ≡ with_pair place (account name.now balance) objects.old.value) }
    ensures begun { objects.new.begun ≡ objects.old.begun }
{
    pairs::keep(objects, account_bytes(name, balance).as_slice())
}

/// Writes another balance of the account of a name. After an error nothing has changed.
pub(crate) fn set_balance(
    objects: &mut Objects,
    name: &[u8],
    account: Account,
    balance: u64,
) -> Result<(), AllocError>
    requires begun { IsSome objects.old.begun }
    requires account { IsAccountAt name.now objects.old.value.blocks account }
    ensures value { OnOk result (objects.new.value ≡ with_balance account.place name.now balance objects.old.value) }
    ensures begun { objects.new.begun ≡ objects.old.begun }
{
    let mut bytes = [0; BALANCE];
    BigEndian::write_u64(&mut bytes, balance);
    objects.write(account.place, name.len() as u64 + 1, &bytes)
}

/// The bytes of an account.
fn account_bytes(name: &[u8], balance: u64) -> ArrayVec<u8, ROOM>
    requires { IsNameLong name.now }
    ensures { result.items ≡ account name.now balance }
{
    let mut field = [0; BALANCE];
    BigEndian::write_u64(&mut field, balance);
    let mut bytes = ArrayVec::new();
    append(&mut bytes, name);
    append(&mut bytes, b" ");
    append(&mut bytes, &field);
    bytes
}

/// The text of a credit.
pub(crate) fn credit_text(name: &[u8], amount: u64) -> ArrayVec<u8, ROOM>
    requires { IsNameLong name.now }
    ensures { result.items ≡ credit_text name.now amount }
{
    let mut text = ArrayVec::new();
    append(&mut text, b"credit ");
    append(&mut text, name);
    append(&mut text, b" ");
    append(&mut text, Buffer::new().format(amount).as_bytes());
    text
}

/// Appends bytes for which there is room.
fn append(text: &mut ArrayVec<u8, ROOM>, bytes: &[u8])
    requires { length text.old.items + length bytes.now ≤ ROOM }
    ensures { text.new.items ≡ text.old.items ++ bytes.now }
{
    if text.try_extend_from_slice(bytes).is_err() {
        unreachable!()
    }
}
