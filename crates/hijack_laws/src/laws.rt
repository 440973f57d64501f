//! The laws. Each is a function without effect: who needs it calls it, and has its clause.
ghost use Rattle.hijack_laws.specs.SubPrefix.{SubPrefixAdoptionHelps, SubPrefixCountsFall};

use data_trace::longest_is_sent;

/// Of an address that is hijacked by a longer prefix whose origins are all invalid: an AS whose packets
/// come to a hijacker where more ASes drop invalid routes is one whose packets do where fewer drop them
/// (RFC 6811, section 3; RFC 4632, section 5.1).
pub fn sub_prefix_adoption_helps()
    ensures { SubPrefixAdoptionHelps }
{
    longest_is_sent();
}

/// There, among any ASes, packets of no more of them come to a hijacker where more ASes drop invalid routes.
pub fn sub_prefix_counts_fall()
    ensures { SubPrefixCountsFall }
{
    sub_prefix_adoption_helps();
}
