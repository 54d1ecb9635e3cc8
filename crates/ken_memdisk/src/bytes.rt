// Bytes written over others.
ghost use Rattle.std.specs.Prelude.{◌≡◌, ◌+◌, ◌≤◌, length, take, drop, vec_len, vec_capacity};
ghost use Rattle.ken_disk.specs.Bytes.{IsBytes, overwrite};
ghost use Rattle.ken_memdisk.specs.Platters.{Differ};

// Writes `bytes` from the place `at` on, past the end too. There is room for them.
pub(crate) fn lay_over(old: &mut Vec<u8>, at: usize, bytes: &[u8])
    requires inside { at ≤ vec_len old.old }
    requires room { at + length bytes.now ≤ vec_capacity old.old }
    ensures { old.new.items ≡ overwrite at bytes.now old.old.items }
{
    let over = bytes.len().min(old.len() - at);
    old[at..at + over].copy_from_slice(&bytes[..over]);
    old.extend_from_slice(&bytes[over..]).unwrap();
}

// Makes a buffer with room enough hold these bytes.
pub(crate) fn refill(buffer: &mut Vec<u8>, bytes: &[u8])
    requires room { length bytes.now ≤ vec_capacity buffer.old }
    ensures same { buffer.new.items ≡ bytes.now }
    ensures bytes { IsBytes bytes.now }
{
    buffer.clear();
    buffer.extend_from_slice(bytes).unwrap();
}

// Copies a range of `from` into the same place of `to`.
fn copy_range(from: &[u8], to: &mut [u8], at: usize, count: usize)
    requires from { at + count ≤ length from.now }
    requires to { at + count ≤ length to.old }
    ensures { to.new ≡ overwrite at (take count (drop at from.now)) to.old }
{
    to[at..at + count].copy_from_slice(&from[at..at + count]);
}

// Copies the ranges.
fn copy_ranges(from: &[u8], to: &mut [u8], ranges: &[(u64, u64)])
    requires len { length to.old ≡ length from.now }
    requires differ { Differ ranges.now from.now to.old }
    ensures { to.new ≡ from.now }
{
    for range in ranges {
        copy_range(from, to, range.0 as usize, range.1 as usize);
    }
}

// Makes `synced` the bytes of `seen`, from which it differs only in the ranges and past its end.
pub(crate) fn catch_up(seen: &[u8], synced: &mut Vec<u8>, ranges: &[(u64, u64)])
    requires differ { Differ ranges.now seen.now synced.old.items }
    requires room { length seen.now ≤ vec_capacity synced.old }
    ensures { synced.new.items ≡ seen.now }
{
    synced.extend_from_slice(&seen[synced.len()..]).unwrap();
    copy_ranges(seen, synced, ranges);
}
