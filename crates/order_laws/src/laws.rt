// Laws of orders of definitions. Each is a fact about the definitions, which a caller learns by calling the function.
ghost use Rattle.order_laws.specs.Counted.{CountedLaw};
ghost use Rattle.order_laws.specs.Counters.{CountersLaw};
ghost use Rattle.order_laws.specs.Orders.{OrderLaw};
ghost use Rattle.order_laws.specs.Texts.{CountersDeepLaw, CountersRiseLaw, GroundThereLaw, NoneItselfLaw, OneGroundLaw, TextCountersLaw, TextOrderLaw};

/// Where no definition needs itself, over others or at once, an order leads through all of them in which each stands behind
/// those that it needs. In a text that breaks no rule on names none needs itself, so there is such an order of its definitions.
pub fn order_law()
    ensures order { OrderLaw }
    ensures none_itself { NoneItselfLaw }
    ensures text { TextOrderLaw }
{}

/// Along an order, a table that knows counters has the same as one that doesn't of what constants and modes look up; in a text
/// that breaks no rule on names, of all but counters. There the values around a counter's loop name only what stands less deep
/// than the counter, and no counter but such as stand before it; so the table that knows counters is filled by their numbers.
pub fn counters_law()
    ensures looked_up { CountersLaw }
    ensures text { TextCountersLaw }
    ensures deep { CountersDeepLaw }
    ensures rise { CountersRiseLaw }
    ensures counted { CountedLaw }
{}

/// A text that breaks no rule on names has a ground for the phase of modes and constants, and one alone.
pub fn ground_law()
    ensures there { GroundThereLaw }
    ensures one { OneGroundLaw }
{}
