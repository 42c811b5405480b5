// A row put into lent bytes, word by word.
ghost use Rattle.std.specs.Prelude.{◌+◌, ◌≤◌, length};
ghost use Rattle.base.specs.Put.{Wrote};
ghost use Rattle.paper.specs.Words.{words_bytes};
ghost use Rattle.paper.specs.Rows.{file_row, group_row};
ghost use Rattle.paper.specs.Accounts.{account};

// Puts the 24 words of a row at `at`, and returns the next place.
pub fn put_row(rows: &mut [u8], at: usize, words: [u64; 24]) -> usize
    requires { at + 192 ≤ length rows.old }
    ensures { Wrote rows.old at (words_bytes words) rows.new result }
{
    out::word::put_words(rows, at, &words)
}

// The row of an account file.
pub fn put_file_row(rows: &mut [u8], at: usize, kind: u64, number: u64) -> usize
    requires { at + 192 ≤ length rows.old }
    ensures { Wrote rows.old at (words_bytes (file_row kind number)) rows.new result }
{
    put_row(
        rows,
        at,
        [
            1, kind, number, 0, 0, 0, 0, 0, 0, 0, 0, 0, 0, 0, 0, 0, 0, 0, 0, 0, 0, 0, 0, 0,
        ],
    )
}

// The row of a group.
pub fn put_group_row(rows: &mut [u8], at: usize, date: u64, prefix: u64, base: u64) -> usize
    requires { at + 192 ≤ length rows.old }
    ensures { Wrote rows.old at (words_bytes (group_row date (account prefix base))) rows.new result }
{
    put_row(
        rows,
        at,
        [
            2, date, prefix, base, 0, 0, 0, 0, 0, 0, 0, 0, 0, 0, 0, 0, 0, 0, 0, 0, 0, 0, 0, 0,
        ],
    )
}
