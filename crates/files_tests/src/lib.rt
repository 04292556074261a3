//! Tests of the crates that read and write files: records, task files, work files, traces and demand files.
#![tactic(auto)]

#[cfg(test)]
mod demands;
#[cfg(test)]
mod records;
#[cfg(test)]
mod task_files;
#[cfg(test)]
mod trace_files;
#[cfg(test)]
mod work_files;
