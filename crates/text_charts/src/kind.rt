//! How a run is drawn.

/// How a run is drawn.
#[derive(Clone, Copy)]
pub enum Kind {
    /// A row for each line, as an SVG picture.
    Picture,
    /// The same picture, in an HTML page.
    Page,
    /// At most 240 rows of many steps each, as an SVG picture. A map is of all steps and all makers,
    /// whatever a view leaves out.
    Map,
}
