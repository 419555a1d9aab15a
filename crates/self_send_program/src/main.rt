//! A test: the program `linx_sim` over a file with the script of a self send.
#![tactic(auto)]

use linx_commands::{Told, Words, program};
use linx_files::SystemNewFile;
use linx_outside::{ReadFrom, SystemFiles, WriteTo};
use run_progress::EachSecond;

fn main(rt: HostRuntime) -> Told {
    let words = Words::of(&rt, rt.alloc());
    let files = SystemFiles::new(&rt);
    let mut new_file = SystemNewFile::new(&rt);
    let mut script = ReadFrom::new(rt.stdin());
    let mut text = WriteTo::new(rt.stdout());
    let mut errors = WriteTo::new(rt.stderr());
    let mut said = WriteTo::new(rt.stderr());
    program(
        &rt,
        rt.alloc(),
        words,
        &files,
        &mut new_file,
        &mut script,
        &mut text,
        &mut errors,
        &mut EachSecond::new(&rt, &mut said),
    )
}
