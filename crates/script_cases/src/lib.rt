//! Cases of the script language: each statement and command in each of its forms, bad lines of each
//! kind, and the generated script beside the one that its text spells. They stand apart from
//! `script_lang` and `work_gen`, so that those are proved once.
#![tactic(auto)]

#[cfg(test)]
mod bad_lines;
#[cfg(test)]
mod generated;
#[cfg(test)]
mod load_text;
#[cfg(test)]
mod shown;
#[cfg(test)]
mod statements;
