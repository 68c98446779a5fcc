// Looking through the entries of a slot list.
ghost use Rattle.std.specs.Prelude.{◌≡◌, ◌≤◌, length, take};
ghost use Rattle.schedule.specs.Lists.{foreign, missing, names};

// Whether some entry is not below `boards`.
pub(crate) fn has_foreign(entries: &[u8], boards: usize) -> bool
    ensures { result ≡ foreign boards entries.now }
{
    entries.iter().any(|board| *board as usize >= boards)
}

// Whether some entry is `board`.
fn has_entry(entries: &[u8], board: usize) -> bool
    ensures { result ≡ names board entries.now }
{
    entries.iter().any(|entry| *entry as usize == board)
}

// Whether some board below `boards` has no entry.
pub(crate) fn has_missing(entries: &[u8], boards: usize) -> bool
    ensures { result ≡ missing boards entries.now }
{
    (0..boards).any(|board| !has_entry(entries, board))
}

// The entries at the front of an array.
pub(crate) fn padded(entries: &[u8]) -> [u8; 64]
    requires { length entries.now ≤ 64 }
    ensures { take (length entries.now) result ≡ entries.now }
{
    let mut all = [0; 64];
    all[..entries.len()].copy_from_slice(entries);
    all
}
