// The rules of statements, record by record: the statement that is open, what the next record leads to, and how the last one ends.
ghost use Rattle.std.specs.Prelude.{◌≡◌, ◌+◌, ◌*◌, ◌≤◌, Some};
ghost use Rattle.turnover.specs.Counts.{Roomy};
ghost use Rattle.gpc.specs.Turnovers.{most12};
ghost use Rattle.gpc.specs.Statements.{top};
ghost use Rattle.record.specs.Told.{SmallHead, Small};
ghost use Rattle.statement.specs.run.Follows.{spots_of, stray, Sized, AllSized, Follows, Stood, Opens, Ends, Moves, Leads, Finishes};

use record::{Entry, HeadFields};
use refusal::{Flaw, Refusal};
use turnover::Turns;
use turnover::signed::Signed;

// Where a head's fields are that sums are refused at.
#[derive(Clone, Copy)]
pub struct Spots {
    pub new: usize,
    pub debit: usize,
    pub credit: usize,
}

// A statement that is open: how many records stand before its head, what the head says, and the turnovers of its movements so far.
#[derive(Clone, Copy)]
pub struct Open {
    pub head: u64,
    pub old: Signed,
    pub new: Signed,
    pub debit: Signed,
    pub credit: Signed,
    pub turns: Turns,
}

// A refusal: how many records stand before the one that is refused, and what that one is refused for.
#[derive(Clone, Copy)]
pub struct Fault {
    pub behind: u64,
    pub flaw: Flaw,
}

// The record behind k others is missing, is none, or comes before any head.
pub fn stray(k: u64) -> Fault
    ensures { result ≡ stray k }
{
    Fault {
        behind: k,
        flaw: Flaw(Refusal::BadRecord, 0),
    }
}

// Before the first record no statement is open.
pub fn start() -> Option<Open>
    ensures { Follows result top }
{
    None
}

// Behind a head that k records stand before.
fn opened(x: HeadFields, k: u64) -> Open
    requires { SmallHead x }
    ensures { Opens k x result }
{
    Open {
        head: k,
        old: x.old,
        new: x.new,
        debit: x.debit,
        credit: x.credit,
        turns: Turns::none(),
    }
}

// The open statement is over: 52 for the debit turnover, 52 for the credit turnover, 53 for the new balance, each at its head.
fn close(x: Open, p: Spots) -> Result<(), Fault>
    requires { Sized x }
    ensures { Ends (spots_of p) (Some x) result }
{
    let behind = x.head;
    if x.turns.debit_is(x.debit) {
        if x.turns.credit_is(x.credit) {
            if turnover::signed::balanced(x.old, x.new, x.debit, x.credit) {
                return Ok(());
            }
            let flaw = Flaw(Refusal::BadBalance, p.new);
            return Err(Fault { behind, flaw });
        }
        let flaw = Flaw(Refusal::BadTurnover, p.credit);
        return Err(Fault { behind, flaw });
    }
    let flaw = Flaw(Refusal::BadTurnover, p.debit);
    Err(Fault { behind, flaw })
}

// The statement that is open is over, if one is.
fn over(run: Option<Open>, p: Spots) -> Result<(), Fault>
    requires { AllSized run }
    ensures { Ends (spots_of p) run result }
{
    match run {
        Some(x) => close(x, p),
        None => Ok(()),
    }
}

// With a movement besides.
fn moved(x: Open, code: u64, amount: u64) -> Open
    requires { Roomy x.turns × (amount ≤ most12) }
    ensures { Moves x code amount result }
{
    let turns = x.turns.with(code, amount);
    Open { turns, ..x }
}

// The statement that is open behind the next record, which stands behind k others. It is compiled into both passes, which else would hand the
// open statement to and fro for each record.
#[inline(always)]
pub fn next(run: Option<Open>, e: Entry, k: u64, p: Spots) -> Result<Open, Fault>
    requires small { Small e }
    requires stood { Stood run k }
    requires k_bound { 130 * k + 130 ≤ 18446744073709551615 }
    ensures { Leads (spots_of p) run e k result }
{
    match e {
        Entry::Movement(read) => {
            let Some(x) = run else {
                return Err(stray(k));
            };
            match read {
                Ok(m) => Ok(moved(x, m.code, m.amount)),
                Err(flaw) => Err(Fault { behind: k, flaw }),
            }
        }
        Entry::Head(read) => {
            over(run, p)?;
            match read {
                Ok(h) => Ok(opened(h, k)),
                Err(flaw) => Err(Fault { behind: k, flaw }),
            }
        }
        Entry::Nothing => Err(stray(k)),
    }
}

// No record follows k of them: their count.
pub fn finish(run: Option<Open>, k: u64, p: Spots) -> Result<u64, Fault>
    requires { AllSized run }
    ensures { Finishes (spots_of p) run k result }
{
    let Some(x) = run else {
        return Err(stray(k));
    };
    close(x, p)?;
    Ok(k)
}
