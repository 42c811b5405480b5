// The register of a day's numbers in lent bytes: 17 little-endian words, the creation date and a bit for each number below 1,000.
#![tactic(auto)]

pub mod questions;

ghost use Rattle.std.specs.Prelude.{◌≡◌, false, ◌≤◌, length, drop};
ghost use Rattle.refusal.specs.Numbers.{number_of};
ghost use Rattle.paper.specs.Words.{words};
ghost use Rattle.fileline.specs.seen.Bits.{bit};
ghost use Rattle.register.specs.Register.{register_size, none_above, register_of, laid_in, answer, start_answer, start_after, lowest_answer, free_answer, give_answer, give_after};
ghost use Rattle.register.specs.Told.{told, Sound, told_answer};

use fileline::seen::Seen;
use refusal::Refusal;

// A register taken out of lent bytes: whether they are laid out as one, its date, and its numbers.
#[derive(Clone, Copy)]
pub struct Loaded {
    pub laid: bool,
    pub date: u64,
    pub set: Seen,
}

// The answer of a call: the number returned, and the value that it names, else 0.
#[repr(C)]
#[derive(Clone, Copy)]
pub struct AboRegister {
    pub number: u64,
    pub value: u64,
}

// What is loaded from bytes that are not laid out as a register.
fn malformed() -> Loaded
    ensures laid_value { result.laid ≡ false }
    ensures sound { Sound result }
{
    Loaded {
        laid: false,
        date: 0,
        set: Seen::none(),
    }
}

// The sixteen words of numbers.
fn numbers_in(lent: &[u8]) -> Seen
    requires { register_size ≤ length lent.now }
    ensures { result.words ≡ words 16 (drop 8 lent.now) }
{
    let mut set = [0u64; 16];
    for i in 0..16 {
        set[i] = out::word::word_at(lent, 8 + 8 * i);
    }
    Seen { words: set }
}

// Is none of the numbers 1,000 to 1,023 in the set? They are the bits of the last word from 40 on.
fn none_above(set: Seen) -> bool
    ensures { result ≡ none_above (bit set.words) }
{
    set.words[15] >> 40 == 0
}

// What lent bytes say.
pub fn load(lent: &[u8]) -> Loaded
    ensures result_value { told result ≡ register_of lent.now }
    ensures sound { Sound result }
{
    if lent.len() < 136 {
        return malformed();
    }
    let date = out::word::word_at(lent, 0);
    if calendar::real_day(date) {
        let set = numbers_in(lent);
        if none_above(set) {
            return Loaded {
                laid: true,
                date,
                set,
            };
        }
    }
    malformed()
}

// Puts a date and the numbers of a set into lent bytes; those behind the register stay.
pub fn store(lent: &mut [u8], date: u64, set: Seen)
    requires { register_size ≤ length lent.old }
    ensures { lent.new ≡ laid_in lent.old date (bit set.words) }
{
    let words = set.words;
    let at = out::word::put_word(lent, 0, date);
    out::word::put_words(lent, at, &words);
}

// ---- the calls

// An answer that names a value.
fn said(value: u64) -> AboRegister
    ensures { told_answer result ≡ answer 0 value }
{
    AboRegister { number: 0, value }
}

// A refusal, which may name a value too.
fn refused(refusal: Refusal, value: u64) -> AboRegister
    ensures { told_answer result ≡ answer (number_of refusal) value }
{
    AboRegister {
        number: refusal.number(),
        value,
    }
}

// Starts a day: no number is marked.
pub fn start(date: u64, lent: &mut [u8]) -> AboRegister
    ensures result_value { told_answer result ≡ start_answer date lent.old }
    ensures lent_after { lent.new ≡ start_after date lent.old }
{
    if calendar::real_day(date) {
        if lent.len() < 136 {
            return refused(Refusal::NoRoom, 136);
        }
        store(lent, date, Seen::none());
        return said(0);
    }
    refused(Refusal::BadToday, 0)
}

// The lowest free number, 1,000 if none is.
pub fn lowest_number(lent: &[u8]) -> AboRegister
    ensures { told_answer result ≡ lowest_answer lent.now }
{
    let r = load(lent);
    if r.laid {
        return said(questions::lowest_free(r.set));
    }
    refused(Refusal::BadRegister, 0)
}

// How many numbers are free.
pub fn free_numbers(lent: &[u8]) -> AboRegister
    ensures { told_answer result ≡ free_answer lent.now }
{
    let r = load(lent);
    if r.laid {
        return said(questions::count_free(r.set));
    }
    refused(Refusal::BadRegister, 0)
}

// Gives the number n back: it is free again.
pub fn give_back(lent: &mut [u8], n: u64) -> AboRegister
    ensures result_value { told_answer result ≡ give_answer lent.old n }
    ensures lent_after { lent.new ≡ give_after lent.old n }
{
    let r = load(lent);
    if r.laid {
        if n < 1000 {
            if r.set.has(n) {
                store(lent, r.date, questions::freed(r.set, n));
                return said(0);
            }
        }
        return refused(Refusal::NotTaken, 0);
    }
    refused(Refusal::BadRegister, 0)
}
