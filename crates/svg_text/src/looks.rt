//! How each class is named, and how it looks.
ghost use Rattle.std.specs.Prelude.{◌≡◌};
ghost use Rattle.svg_text.specs.Classes.{all_classes, class_name, light_look, dark_look};
ghost use Rattle.svg_text.specs.Texts as texts;

use crate::class::Class;

pub(crate) const CLASSES: usize = 35;

/// The ground and the words of a light picture.
#[tactic(auto, unfolding(crate::specs::Texts::light_ground))]
pub(crate) fn light_ground() -> &'static [u8]
    ensures { result.now ≡ texts.light_ground }
{
    b"svg{background:#fff}\ntext{font:11px ui-monospace,'DejaVu Sans Mono',Menlo,\
      Consolas,monospace;fill:#222;white-space:pre}\n\
      .row:hover .hit,.lit .hit{fill:#e69f00;fill-opacity:.2}\n\
      .front{pointer-events:none}\n\
      .label,.faint,.strong,.wrong-label{paint-order:stroke;stroke:#f6f9fc;\
      stroke-width:11px;stroke-linejoin:round}\n\
      .back text{stroke:none}\n"
}

/// What is otherwise in a dark one.
#[tactic(auto, unfolding(crate::specs::Texts::dark_ground))]
pub(crate) fn dark_ground() -> &'static [u8]
    ensures { result.now ≡ texts.dark_ground }
{
    b"@media(prefers-color-scheme:dark){\nsvg{background:#14171b}\ntext{fill:#e4e6e8}\n"
}

/// All classes, in the order in which the style sheet has them.
#[tactic(auto, unfolding(crate::specs::Classes::all_classes))]
pub(crate) fn all() -> [Class; CLASSES]
    ensures { result ≡ all_classes }
{
    [
        Class::Node,
        Class::NodeCaption,
        Class::Lane,
        Class::Stripe,
        Class::Cut,
        Class::Restart,
        Class::Fold,
        Class::Life,
        Class::Bar,
        Class::Wait,
        Class::Rail,
        Class::Session,
        Class::Packet,
        Class::PacketHead,
        Class::Told,
        Class::ToldHead,
        Class::Signal,
        Class::SignalHead,
        Class::Found,
        Class::FoundHead,
        Class::Notice,
        Class::NoticeHead,
        Class::Queue,
        Class::QueueFound,
        Class::QueueNotice,
        Class::Mark,
        Class::Dot,
        Class::Wrong,
        Class::Label,
        Class::Faint,
        Class::Strong,
        Class::WrongLabel,
        Class::Line,
        Class::Effect,
        Class::Hit,
    ]
}

/// The name of a class.
pub(crate) fn name(class: Class) -> &'static [u8]
    ensures { result.now ≡ class_name class }
{
    match class {
        Class::Node => b"node",
        Class::NodeCaption => b"node-caption",
        Class::Lane => b"lane",
        Class::Stripe => b"stripe",
        Class::Cut => b"cut",
        Class::Restart => b"restart",
        Class::Fold => b"fold",
        Class::Life => b"life",
        Class::Bar => b"bar",
        Class::Wait => b"wait",
        Class::Rail => b"rail",
        Class::Session => b"session",
        Class::Packet => b"packet",
        Class::PacketHead => b"packet-head",
        Class::Told => b"told",
        Class::ToldHead => b"told-head",
        Class::Signal => b"signal",
        Class::SignalHead => b"signal-head",
        Class::Found => b"found",
        Class::FoundHead => b"found-head",
        Class::Notice => b"notice",
        Class::NoticeHead => b"notice-head",
        Class::Queue => b"queue",
        Class::QueueFound => b"queue-found",
        Class::QueueNotice => b"queue-notice",
        Class::Mark => b"mark",
        Class::Dot => b"dot",
        Class::Wrong => b"wrong",
        Class::Label => b"label",
        Class::Faint => b"faint",
        Class::Strong => b"strong",
        Class::WrongLabel => b"wrong-label",
        Class::Line => b"line",
        Class::Effect => b"effect",
        Class::Hit => b"hit",
    }
}

/// How a class looks on a light ground.
pub(crate) fn light(class: Class) -> &'static [u8]
    ensures { result.now ≡ light_look class }
{
    match class {
        Class::Node => b"fill:#f4f8fb;stroke:#d5e2ef",
        Class::NodeCaption => b"fill:#d5e2ef",
        Class::Lane => b"fill:#fcfcfc;stroke:#e6e6e6",
        Class::Stripe => b"fill:#000;fill-opacity:.025",
        Class::Cut => b"fill:#d55e00;fill-opacity:.1;stroke:#d55e00;stroke-dasharray:3 2",
        Class::Restart => b"stroke:#c04a00;stroke-width:3;stroke-opacity:.5",
        Class::Fold => b"fill:#8d96a0;fill-opacity:.18",
        Class::Life => b"stroke:#9aa4ae;stroke-dasharray:2 3;fill:none",
        Class::Bar => b"fill:#fff;stroke:#445",
        Class::Wait => b"fill:#cfd6dd",
        Class::Rail => b"stroke:#c3c9d0;fill:none",
        Class::Session => b"fill:#5b6b7b",
        Class::Packet => b"stroke:#8d96a0;fill:none",
        Class::PacketHead => b"fill:#8d96a0",
        Class::Told => b"stroke:#445;stroke-width:1.4;fill:none",
        Class::ToldHead => b"fill:#445",
        Class::Signal => b"stroke:#0072b2;stroke-width:1.6;fill:none",
        Class::SignalHead => b"fill:#0072b2",
        Class::Found => b"stroke:#00805c;stroke-width:1.6;stroke-dasharray:6 3;fill:none",
        Class::FoundHead => b"fill:#00805c",
        Class::Notice => b"stroke:#9c3f80;stroke-width:1.6;stroke-dasharray:2 2;fill:none",
        Class::NoticeHead => b"fill:#9c3f80",
        Class::Queue => b"stroke:#0072b2;stroke-width:2.4;fill:none",
        Class::QueueFound => b"stroke:#00805c;stroke-width:2.4;fill:none",
        Class::QueueNotice => b"stroke:#9c3f80;stroke-width:2.4;fill:none",
        Class::Mark => b"fill:#fff;stroke:#222;stroke-width:1.3",
        Class::Dot => b"fill:#222",
        Class::Wrong => b"stroke:#c04a00;stroke-width:2;fill:none",
        Class::Label => b"fill:#222",
        Class::Faint => b"fill:#667",
        Class::Strong => b"fill:#222;font-weight:700",
        Class::WrongLabel => b"fill:#b04400;font-weight:700",
        Class::Line => b"fill:#667",
        Class::Effect => b"fill:#737385",
        Class::Hit => b"fill:#fff;fill-opacity:0",
    }
}

/// What is otherwise on a dark one.
pub(crate) fn dark(class: Class) -> &'static [u8]
    ensures { result.now ≡ dark_look class }
{
    match class {
        Class::Node => b"fill:#191f26;stroke:#2a3947",
        Class::NodeCaption => b"fill:#2a3947",
        Class::Lane => b"fill:#161a1f;stroke:#262d35",
        Class::Stripe => b"fill:#fff",
        Class::Cut => b"fill:#ff8f45;stroke:#ff8f45",
        Class::Restart => b"stroke:#ff8f45",
        Class::Fold => b"fill:#8d96a0",
        Class::Life => b"stroke:#5c6772",
        Class::Bar => b"fill:#14171b;stroke:#aab4be",
        Class::Wait => b"fill:#39434d",
        Class::Rail => b"stroke:#3a434d",
        Class::Session => b"fill:#93a3b3",
        Class::Packet => b"stroke:#77818c",
        Class::PacketHead => b"fill:#77818c",
        Class::Told => b"stroke:#b9c2cc",
        Class::ToldHead => b"fill:#b9c2cc",
        Class::Signal => b"stroke:#56b4e9",
        Class::SignalHead => b"fill:#56b4e9",
        Class::Found => b"stroke:#33c499",
        Class::FoundHead => b"fill:#33c499",
        Class::Notice => b"stroke:#e79bc8",
        Class::NoticeHead => b"fill:#e79bc8",
        Class::Queue => b"stroke:#56b4e9",
        Class::QueueFound => b"stroke:#33c499",
        Class::QueueNotice => b"stroke:#e79bc8",
        Class::Mark => b"fill:#14171b;stroke:#e4e6e8",
        Class::Dot => b"fill:#e4e6e8",
        Class::Wrong => b"stroke:#ff8f45",
        Class::Label => b"fill:#e4e6e8;stroke:#181d23",
        Class::Faint => b"fill:#98a2ae;stroke:#181d23",
        Class::Strong => b"fill:#e4e6e8;stroke:#181d23",
        Class::WrongLabel => b"fill:#ff9d5c;stroke:#181d23",
        Class::Line => b"fill:#98a2ae",
        Class::Effect => b"fill:#7f8995",
        Class::Hit => b"fill:#fff",
    }
}
