//! The laws. Each is a function without effect: who needs it calls it, and has its clause.
ghost use Rattle.swept_hijacks.specs.Numbers.{NumbersFall, ReportedHijacksFall, SweptHijacksFall};

use data_trace::longest_is_sent;

/// Of two worlds that differ only in their kinds, the second having more droppers: packets of no more of
/// its ASes are delivered at the hijacker (RFC 6811, section 3; RFC 4632, section 5.1).
pub fn numbers_fall()
    ensures { NumbersFall }
{
    longest_is_sent();
}

/// The report of the world with more droppers counts no more ASes whose packets are delivered at the
/// hijacker.
pub fn reported_hijacks_fall()
    ensures { ReportedHijacksFall }
{
    numbers_fall();
}

/// In each trial of a sweep line, packets of no more ASes are delivered at the hijacker where more ASes
/// adopt.
pub fn swept_hijacks_fall()
    ensures { SweptHijacksFall }
{
    longest_is_sent();
}
