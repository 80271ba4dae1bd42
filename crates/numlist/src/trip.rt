//! There and back: what any list promises, used through the trait alone.
ghost use Rattle.std.specs.Prelude.{◌≡◌, ℕ, ◌<◌, ◌≤◌, true, List, ◌++◌, length, is_ok};
ghost use Rattle.bits.specs.Packing.{Narrow};
ghost use Rattle.numlist.specs.Calls.{write_answer, all_back, written};
ghost use Rattle.numlist.specs.Lists.{most};

use crate::{NumberList, WriteRefused};

/// Writes the numbers, opens their string and reads every number of it: whether all are those that were written. It is
/// refused as writing is, and leaves the bytes as writing does.
pub fn comes_back<L: NumberList>(
    list: &L,
    numbers: &[u64],
    out: &mut [u8],
) -> Result<bool, WriteRefused>
    ensures answer { (L.NumberList.meaning list.now).reach ≤ 64 → result ≡ all_back (write_answer (L.NumberList.meaning list.now) numbers.now (length out.old)) }
    ensures bytes { out.new ≡ written (L.NumberList.meaning list.now) numbers.now out.old (is_ok result) }
{
    list.write(numbers, out)?;
    Ok(is_open(list, out, numbers) && all_there(list, out, numbers))
}

fn is_open<L: NumberList>(list: &L, bytes: &[u8], numbers: &[u64]) -> bool
    ensures { (rest : List ℕ) → (L.NumberList.meaning list.now).reach ≤ 64 → Narrow (L.NumberList.meaning list.now).reach numbers.now → length numbers.now ≤ most → bytes.now ≡ (L.NumberList.meaning list.now).string numbers.now ++ rest → result ≡ true }
{
    list.open(bytes, numbers.len()).is_ok()
}

fn all_there<L: NumberList>(list: &L, bytes: &[u8], numbers: &[u64]) -> bool
    ensures { (rest : List ℕ) → (L.NumberList.meaning list.now).reach ≤ 64 → Narrow (L.NumberList.meaning list.now).reach numbers.now → length numbers.now ≤ most → bytes.now ≡ (L.NumberList.meaning list.now).string numbers.now ++ rest → result ≡ true }
{
    numbers.iter().enumerate().all(|(i, number)| list.read(bytes, numbers.len(), i) == Ok(*number))
}
