//! How a call ended, as a number and a line.
ghost use Rattle.std.specs.Prelude.{◌≡◌, ◌+◌, ◌≤◌, ◌++◌, length};
ghost use Rattle.arrayvec.specs.ArrayString.{array_string_len};
ghost use Rattle.flume_cli.specs.Status.{status_number, line_of, place_text, refusal_line, ledger_refusal_line, status_of_audit};

use arrayvec::ArrayString;
use audit_run::{AuditEnd, LedgerRefusal};
use itoa::Buffer;
use ledger_verdict::Verdict;
use pipeline_desc::Refusal;

/// How a call ended. The program ends with the number.
#[derive(Clone, Copy, Debug, PartialEq, Eq)]
pub enum Status {
    /// 0: nothing failed.
    Good,
    /// 1: a stream ended with a fault.
    Faulty,
    /// 2: the words mean nothing.
    BadWords,
    /// 3: the description is refused.
    Refused(Refusal),
    /// 4: the output could not be written.
    NotWritten,
    /// 5: memory was wanting.
    Memory,
    /// 6: the description could not be read.
    Unread,
    /// 7: a resource could not be closed well.
    Unclean,
    /// 1: the ledger breaks a rule.
    Broken,
    /// 3: the ledger is refused.
    LedgerRefused(LedgerRefusal),
    /// 6: the ledger could not be read.
    LedgerUnread,
}

/// A line of standard error, which takes no memory.
pub type StatusLine = ArrayString<72>;

impl Status {
    pub fn number(self) -> u8
        ensures { result ≡ status_number self }
    {
        match self {
            Status::Good => 0,
            Status::Faulty => 1,
            Status::BadWords => 2,
            Status::Refused(_) => 3,
            Status::NotWritten => 4,
            Status::Memory => 5,
            Status::Unread => 6,
            Status::Unclean => 7,
            Status::Broken => 1,
            Status::LedgerRefused(_) => 3,
            Status::LedgerUnread => 6,
        }
    }

    /// The status of an audit that ended so.
    pub(crate) fn of_audit(end: AuditEnd) -> Status
        ensures { result ≡ status_of_audit end }
    {
        match end {
            AuditEnd::Told(Verdict::Clean) => Status::Good,
            AuditEnd::Told(Verdict::Broken(..)) => Status::Broken,
            AuditEnd::NotWritten => Status::NotWritten,
            AuditEnd::Memory => Status::Memory,
            AuditEnd::Refused(refusal) => Status::LedgerRefused(refusal),
            AuditEnd::Unread => Status::LedgerUnread,
        }
    }

    /// What standard error is told: a line, or nothing where the output tells enough.
    pub fn line(self) -> StatusLine
        ensures { result.bytes ≡ line_of self }
    {
        let mut line = ArrayString::new();
        match self {
            Status::BadWords => line.push_str("flume: bad command line\n"),
            Status::Refused(refusal) => push_refusal(&mut line, refusal),
            Status::Memory => line.push_str("flume: out of memory\n"),
            Status::Unread => line.push_str("flume: cannot read the description\n"),
            Status::LedgerRefused(refusal) => push_ledger_refusal(&mut line, refusal),
            Status::LedgerUnread => line.push_str("flume: cannot read the ledger\n"),
            Status::Good | Status::Faulty | Status::NotWritten => {}
            Status::Unclean | Status::Broken => {}
        }
        line
    }
}

/// Appends the number of a refusal, and where it stands.
fn push_refusal(line: &mut StatusLine, refusal: Refusal)
    requires { array_string_len line.old ≡ 0 }
    ensures { line.new.bytes ≡ refusal_line refusal }
{
    line.push_str("flume: description refused ");
    line.push_str(Buffer::new().format(refusal.kind.number()));
    push_place(line, " stream ", refusal.stream);
    push_place(line, " step ", refusal.step);
    line.push_str("\n");
}

/// Appends why a ledger is refused.
fn push_ledger_refusal(line: &mut StatusLine, refusal: LedgerRefusal)
    requires { array_string_len line.old ≡ 0 }
    ensures { line.new.bytes ≡ ledger_refusal_line refusal }
{
    line.push_str("flume: ledger refused ");
    match refusal {
        LedgerRefusal::Size => line.push_str("size"),
        LedgerRefusal::Line(place) => {
            line.push_str("line ");
            line.push_str(Buffer::new().format(place));
        }
        LedgerRefusal::Count(said, found) => {
            line.push_str("count ");
            line.push_str(Buffer::new().format(said));
            line.push_str(" ");
            line.push_str(Buffer::new().format(found));
        }
    }
    line.push_str("\n");
}

/// Appends a name and a number, where there is one.
fn push_place(line: &mut StatusLine, name: &str, number: Option<u32>)
    requires { array_string_len line.old + length name.now + 10 ≤ 72 }
    ensures text { line.new.bytes ≡ line.old.bytes ++ place_text name.now number }
    ensures room { array_string_len line.new ≤ array_string_len line.old + length name.now + 10 }
{
    if let Some(number) = number {
        line.push_str(name);
        line.push_str(Buffer::new().format(number));
    }
}
