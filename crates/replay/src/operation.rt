// The operations of the list, by their numbers there.
use std::fmt;

#[derive(Clone, Copy, Debug, PartialEq, Eq)]
pub enum Operation {
    NumberSize,
    NumberRead,
    NumberWrite,
    CidRead,
    CidWrite,
    Default,
    Read,
    Write,
    New,
    Resumption,
    IssueLimit,
    Check,
    Tidy,
    TidyTwice,
    CheckOrder,
    Length,
    OrderFault,
    Authentication,
    Report,
}

/// All of them, each at its number: an array and no TryFrom, since the tallies are printed in its
/// order.
pub const OPERATIONS: [Operation; 19] = [
    Operation::NumberSize,
    Operation::NumberRead,
    Operation::NumberWrite,
    Operation::CidRead,
    Operation::CidWrite,
    Operation::Default,
    Operation::Read,
    Operation::Write,
    Operation::New,
    Operation::Resumption,
    Operation::IssueLimit,
    Operation::Check,
    Operation::Tidy,
    Operation::TidyTwice,
    Operation::CheckOrder,
    Operation::Length,
    Operation::OrderFault,
    Operation::Authentication,
    Operation::Report,
];

impl fmt::Display for Operation {
    fn fmt<W: fmt::Write>(&self, f: &mut fmt::Formatter<W>) -> fmt::Result {
        f.write_str(match self {
            Operation::NumberSize => "number_size",
            Operation::NumberRead => "number_read",
            Operation::NumberWrite => "number_write",
            Operation::CidRead => "cid_read",
            Operation::CidWrite => "cid_write",
            Operation::Default => "default",
            Operation::Read => "read",
            Operation::Write => "write",
            Operation::New => "new",
            Operation::Resumption => "resumption",
            Operation::IssueLimit => "issue_limit",
            Operation::Check => "check",
            Operation::Tidy => "tidy",
            Operation::TidyTwice => "tidy twice",
            Operation::CheckOrder => "check_order",
            Operation::Length => "length",
            Operation::OrderFault => "order_fault",
            Operation::Authentication => "authentication",
            Operation::Report => "report",
        })
    }
}
