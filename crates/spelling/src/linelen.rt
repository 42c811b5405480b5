// How many bytes the first line, the lines that begin account files and groups, and their accounts have, CR LF not counted.
ghost use Rattle.std.specs.Prelude.{◌≡◌, [], ◌∷◌, ◌++◌, ℕ, ◌+◌, ◌≤◌, length};
ghost use Rattle.sheet.specs.declared.Sheet as sheets;
ghost use Rattle.paper.specs.Accounts.{account, spell_account};
ghost use Rattle.paper.specs.Numerals.{decimal};
ghost use Rattle.paper.specs.Batch.{Header};
ghost use Rattle.paper.specs.FirstLine.{spell_first};
ghost use Rattle.paper.specs.FileLine.{spell_file};
ghost use Rattle.paper.specs.GroupLine.{spell_payer, spell_group};

use sheet::Sheet;

// The first line: all fields have their width.
pub fn first_len(sh: Sheet) -> usize
    ensures value { (h : Header) → length h.name ≡ 20 → result ≡ length (spell_first sh h) }
    ensures upper_bound { result ≤ 58 }
{
    if sh.header {
        return 58;
    }
    4
}

// The line that begins an account file: so have its fields, whatever the sheet.
pub fn file_len() -> usize
    ensures value { (sh : sheets.Sheet) (kind number : ℕ) → result ≡ length (spell_file sh kind number) }
    ensures value_2 { result ≡ 18 }
{
    18
}

// An account and a space.
pub fn account_space_len(prefix: u64, base: u64) -> usize
    ensures value { result ≡ length (spell_account (account prefix base) ++ (32 ∷ [])) }
    ensures upper_bound { result ≤ 42 }
{
    account::account_len(prefix, base) + 1
}

// A payer and a space; for nobody the space alone, or nothing where his field does not stand `always`.
pub fn payer_len(always: bool, prefix: u64, base: u64) -> usize
    ensures value { result ≡ length (spell_payer always (account prefix base)) }
    ensures upper_bound { result ≤ 42 }
{
    if account::is_nobody(prefix, base) {
        if always {
            return 1;
        }
        return 0;
    }
    account_space_len(prefix, base)
}

// The line that begins a group, without its total, which is known only behind the group's items.
pub fn group_front_len(sh: Sheet, prefix: u64, base: u64) -> usize
    ensures by_index { (total date : ℕ) → result + length (decimal total) ≡ length (spell_group sh (account prefix base) total date) }
    ensures upper_bound { result ≤ 51 }
{
    9 + payer_len(sh.emptypayer, prefix, base)
}
