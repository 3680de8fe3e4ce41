//! The settings that the spooler's children share.

/// The settings that the children of all jobs share.
#[derive(Drop)]
pub struct Place {
    /// The spool's folder.
    pub root: String,
    /// The locale, the variable LANG.
    pub lang: String,
    /// The search path for programs, the variable PATH.
    pub path: String,
    /// Whether each child has a side channel.
    pub side: bool,
}
