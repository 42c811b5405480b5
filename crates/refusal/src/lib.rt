// Why a file, a batch, a statement or a call is refused. A refusal's number is the one that document 01 and the C header give it.
#![tactic(auto)]

ghost use Rattle.std.specs.Prelude.{◌≡◌};
ghost use Rattle.refusal.specs.Numbers.{number_of};
ghost use Rattle.refusal.specs.Placed.{placed};

#[derive(Clone, Copy, PartialEq, Eq)]
pub enum Refusal {
    // the sheet is none of those that are known
    BadSheet = 1,
    // today is no real day of 2000 to 2099
    BadToday = 2,
    // another kind of line is due, the file ends early, or lines follow its end
    BadOrder = 3,
    // wrong bytes or length of a field, or a wrong divider
    BadField = 4,
    // an account breaks the account rule
    BadAccount = 5,
    // an item's amount is zero or over its limit
    BadAmount = 6,
    // the account file's kind is not on the sheet
    BadKind = 7,
    // the payer's bank is not the sheet's
    BadPayerBank = 8,
    // the interval is turned round, or a number lies outside it or came before
    BadNumber = 9,
    // the total is not the sum, or the sum passes 14 digits
    BadTotal = 10,
    // a day is not real, or not among the sheet's
    BadDay = 11,
    // the payee's bank is 0000
    BadPayeeBank = 12,
    // the bank field's ninth or tenth digit is not allowed
    BadDigit = 13,
    // a text breaks the sheet
    BadText = 14,
    // one item or account file more than a file may have
    TooMany = 15,
    // the lent room is too small
    NoRoom = 16,
    // rows or header are no batch, whatever the sheet
    NotABatch = 20,
    // a batch, but no file of this sheet can carry it
    NotCarried = 21,
    // the account file's number was used that day
    NumberUsed = 22,
    // the register is for another date than the file's, or is not laid out as one
    BadRegister = 23,
    // a number given back is not marked in the register, or above 999
    NotTaken = 24,
    // a statement's record or row is missing, cut short or of another type, or comes before any head
    BadRecord = 50,
    // a statement's field is not its digits, sign or code, or in writing passes its digits
    BadValue = 51,
    // a turnover is not what the statement's movements add up to
    BadTurnover = 52,
    // the new balance is not the old one less debit plus credit
    BadBalance = 53,
}

impl Refusal {
    // The number that is answered.
    pub fn number(self) -> u64
        ensures { result ≡ number_of self }
    {
        self as u64
    }
}

// What a line is refused for, and where in the line.
#[derive(Clone, Copy, PartialEq, Eq)]
pub struct Flaw(pub Refusal, pub usize);

// What was read at `at` in a line: a refusal takes that place along.
pub fn placed<T>(answer: Result<T, Refusal>, at: usize) -> Result<T, Flaw>
    ensures { result ≡ placed answer at }
{
    match answer {
        Ok(value) => Ok(value),
        Err(refusal) => Err(Flaw(refusal, at)),
    }
}
