ghost use Rattle.std.specs.Prelude.{◌≡◌, None};
ghost use Rattle.journal_check.specs.Words.{rule_of, word_of};

use linx_base::ItemAt;

/// The laws of a step, in the order in which they are looked at.
#[derive(Clone, Copy, Debug, PartialEq, Eq, Hash)]
pub enum Law {
    /// A step is made by one who makes steps, and is one that this maker may make.
    Makers,
    /// Who opens an endpoint has none, and the steps of an endpoint need one.
    Endpoints,
    /// A name is one, and a signal has no more data than it may.
    Bounds,
    /// The effects of a step off the links are those that its head has.
    Effects,
    /// A signal is answered by whether its peer is alive.
    Sends,
    /// A receive takes the earliest item that its filter selects, or finds none where it may.
    Receives,
    /// What is said of a link is of one that there is.
    Links,
    /// A receive finds none only where every link is still.
    Rest,
    /// A packet that is handed over brings one thing, with exactly its effects, and it may come.
    Packets,
    /// While a link is cut, its packets are lost.
    Cuts,
    /// A tick does nothing, or loses a session whose side was silent for two ticks or more.
    Ticks,
}

/// The first step of a journal that isn't legal, and the first law that it breaks.
#[derive(Clone, Copy, Debug, PartialEq, Eq, Hash)]
pub struct Fault {
    pub step: u64,
    pub law: Law,
    /// Of a receive that breaks the law of receiving: where the earliest item came from that its
    /// filter selects, if it selects one.
    pub earliest: Option<ItemAt>,
}

/// The first law that a step breaks, and the item that it was to take.
#[derive(Clone, Copy)]
pub(crate) struct Broken {
    pub(crate) law: Law,
    pub(crate) earliest: Option<ItemAt>,
}

impl Broken {
    /// A law that asks for no item.
    pub(crate) fn of(law: Law) -> Broken
        ensures { result ≡ record { law = law; earliest = None } }
    {
        Broken {
            law,
            earliest: None,
        }
    }
}

impl Law {
    /// The word of a law, as it is printed.
    pub fn word(self) -> &'static str
        ensures { result.now ≡ word_of self }
    {
        match self {
            Law::Makers => "makers",
            Law::Endpoints => "endpoints",
            Law::Bounds => "bounds",
            Law::Effects => "effects",
            Law::Sends => "sends",
            Law::Receives => "receives",
            Law::Links => "links",
            Law::Rest => "rest",
            Law::Packets => "packets",
            Law::Cuts => "cuts",
            Law::Ticks => "ticks",
        }
    }

    /// What a law asks, as it is printed behind its word.
    pub fn rule(self) -> &'static str
        ensures { result.now ≡ rule_of self }
    {
        match self {
            Law::Makers => {
                "an actor makes steps until it ends, and a pump those of its own link"
            }
            Law::Endpoints =>
                "who opens an endpoint has none, and the steps of an endpoint need one",
            Law::Bounds => {
                "a signal has at most 65532 data bytes, and that of an attach one fewer"
            }
            Law::Effects => "the effects are exactly those that the step has, in order",
            Law::Sends => "a signal is answered dead exactly where its peer is not alive",
            Law::Receives => {
                "a receive takes the earliest item that its filter selects, or finds none at rest"
            }
            Law::Links => "the link is one that there is",
            Law::Rest => "a receive finds none only where every link is still",
            Law::Packets => {
                "a packet brings one thing, with exactly its effects, and only what may come"
            }
            Law::Cuts => "while a link is cut, its packets are lost",
            Law::Ticks => {
                "a tick does nothing, or ends a session whose side heard nothing for two ticks"
            }
        }
    }
}
