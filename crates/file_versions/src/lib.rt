// The versions of a table file. specs/Versions.antt states what a file of each lacks.
#![tactic(auto)]

ghost use Rattle.file_versions.specs.Versions.{Lacks};

// How many sections a file lacks, by its version; `None` where the version is not yet named.
pub fn lack_of(version: u8) -> Option<usize>
    ensures { Lacks version result }
{
    match version {
        1 => Some(2),
        2 => Some(1),
        3 => Some(0),
        4 => Some(0),
        _ => None,
    }
}
