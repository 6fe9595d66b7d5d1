// Laws of parts that become one, and of one that falls apart, each the contract of a function that
// does nothing.
ghost use Rattle.follow_laws.specs.Unions.{PastsFallApart, PastsUnite};

/// Two parts become one of all pairs of their pasts.
pub fn pasts_unite()
    ensures { PastsUnite }
{}

/// A part may be split in two if all its pasts have the same at some of its keys, and each call has
/// keys on one side only.
pub fn pasts_fall_apart()
    ensures { PastsFallApart }
{}
