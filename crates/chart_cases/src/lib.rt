//! Cases of charts, maps, views and pictures, and of the charts of texts. They stand apart from the
//! layers below, so that those are proved once.
#![tactic(auto)]

#[cfg(test)]
mod charts;
#[cfg(test)]
mod maps;
#[cfg(test)]
mod pictures;
#[cfg(test)]
mod texts;
#[cfg(test)]
mod windows;
