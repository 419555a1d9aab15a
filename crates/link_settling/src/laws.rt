//! What follows from the functions of a link alone. These functions do nothing; their contracts are
//! the laws.

ghost use Rattle.std.specs.Prelude.{ℕ};
ghost use Rattle.linx_base.specs.declared.frame.Message.{Message};
ghost use Rattle.link_settling.specs.Laws.{DeliveriesEnd, LinksSettle, LinksSettleInRounds};

/// Each packet that comes and leaves its place, whichever that is, lowers the measure of a link,
/// whatever happened to it and whatever the messages weigh; so without ticks and offers not more
/// than so many come.
pub fn deliveries_end()
    ensures { (weight : Message → ℕ) → DeliveriesEnd weight }
{}

/// Every link, whatever happened to it, settles in six ticks: all packets come, in order and none
/// lost, and whatever is offered meanwhile; then a side ticks, and all packets come; then the other
/// ticks, and so on. After at most six ticks the link is quiet.
pub fn links_settle()
    ensures { LinksSettle }
{}

/// So does every link in six rounds, or in eight: in each of them a side ticks, and all packets
/// come, then the other ticks, and all packets come; which side is the first is free in each round.
pub fn links_settle_in_rounds()
    ensures { LinksSettleInRounds }
{}
