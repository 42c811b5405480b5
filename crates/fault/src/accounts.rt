// The rules of an account and of a group's payer, tested in their order over the field's bytes.
ghost use Rattle.std.specs.Prelude.{◌≡◌, Bool, false, List, [], ◌∷◌, ℕ};
ghost use Rattle.base.specs.Pick.{pick};
ghost use Rattle.paper.specs.Bytes.{null};
ghost use Rattle.why.specs.Rule.{rule, first_broken};
ghost use Rattle.why.specs.Forms.{are_digits, spelled, has_dash, is_joined, prefix_bytes, base_bytes, is_account};
ghost use Rattle.why.specs.Fields.{prefix_ok, base_ok, base_two, account_rules, payer_rules};
ghost use Rattle.fault.specs.field.Ruled.{ruling};

use crate::field::{Broken, broke};

// The rule of an account's digits, of a prefix p and a base b: nothing is left of either by 11, and of the base two digits or more are not zero.
fn check_rule(p: u64, b: u64) -> Result<(), Broken>
    ensures { (joined : Bool) (s : List ℕ) → spelled (prefix_bytes joined s) ≡ p → spelled (base_bytes joined s) ≡ b → result ≡ ruling (first_broken (rule 5 50 (prefix_ok joined) ∷ rule 5 51 (base_ok joined) ∷ rule 5 52 (base_two joined) ∷ []) s) }
{
    if account::doubled_sum(p) % 11 != 0 {
        return Err(broke(5, 50));
    }
    let sum = account::doubled_sum(b);
    if sum % 11 != 0 {
        return Err(broke(5, 51));
    }
    if sum == 0 {
        return Err(broke(5, 52));
    }
    Ok(())
}

// A prefix of 1 to 6 digits and a base of `few` to 10.
fn check_two(p: &[u8], b: &[u8], few: usize) -> Result<(), Broken>
    ensures { (joined : Bool) (least : ℕ) (s : List ℕ) → prefix_bytes joined s ≡ p.now → base_bytes joined s ≡ b.now → is_account joined least s ≡ pick (are_digits 1 6 p.now) (are_digits few 10 b.now) false → result ≡ ruling (first_broken (account_rules joined least) s) }
{
    let Ok(prefix) = numeral::read_digits(p, 1, 6) else {
        return Err(broke(4, 40));
    };
    let Ok(base) = numeral::read_digits(b, few, 10) else {
        return Err(broke(4, 40));
    };
    check_rule(prefix, base)
}

// A base alone.
fn check_one(f: &[u8], joined: bool, least: usize) -> Result<(), Broken>
    requires f_value { has_dash f.now ≡ false }
    requires f_value_2 { is_joined joined f.now ≡ false }
    ensures { result ≡ ruling (first_broken (account_rules joined least) f.now) }
{
    let Ok(base) = numeral::read_digits(f, least, 10) else {
        return Err(broke(4, 40));
    };
    check_rule(0, base)
}

// An account: with a dash, joined where the sheet takes that, or a base alone.
pub fn check_account(f: &[u8], joined: bool, least: usize) -> Result<(), Broken>
    ensures { result ≡ ruling (first_broken (account_rules joined least) f.now) }
{
    let n = f.len();
    let d = scan::find::find_byte(f, 0, 45);
    if d < n {
        let from = d + 1;
        return check_two(&f[0..d], &f[from..n], least);
    }
    if joined {
        if 10 < n {
            let from = n - 10;
            return check_two(&f[0..from], &f[from..n], 10);
        }
        return check_one(f, joined, least);
    }
    check_one(f, joined, least)
}

// A group's payer whose field is not empty, or may not be: zeros where they make the group single, else an account.
fn check_stated(
    f: &[u8],
    empty: bool,
    allzero: bool,
    joined: bool,
    least: usize,
) -> Result<(), Broken>
    requires { pick empty (null f.now) false ≡ false }
    ensures { result ≡ ruling (first_broken (payer_rules empty allzero joined least) f.now) }
{
    if account::only_zeros(f, allzero) {
        return Ok(());
    }
    check_account(f, joined, least)
}

// A group's payer: none where the field is empty (`empty`) or has only zeros (`allzero`), else an account.
pub fn check_payer(
    f: &[u8],
    empty: bool,
    allzero: bool,
    joined: bool,
    least: usize,
) -> Result<(), Broken>
    ensures { result ≡ ruling (first_broken (payer_rules empty allzero joined least) f.now) }
{
    if empty {
        if f.len() == 0 {
            return Ok(());
        }
        return check_stated(f, empty, allzero, joined, least);
    }
    check_stated(f, empty, allzero, joined, least)
}
