//! What is to be measured.
use std::alloc::Global;
use std::{env, io};

#[derive(Clone, Copy)]
pub enum Task {
    /// A round of so many keys, whose logs lie in so many blocks.
    Round { keys: u32, blocks: u64 },
    /// So many requests that wait.
    Requests { count: u64 },
}

fn task_of(words: &[String]) -> Option<Task> {
    match words {
        [word, count] if word.as_str() == "requests" => Some(Task::Requests {
            count: count.parse().ok()?,
        }),
        [keys, blocks] => Some(Task::Round {
            keys: keys.parse().ok()?,
            blocks: blocks.parse().ok()?,
        }),
        _ => None,
    }
}

/// The task that the words of the command line name.
pub fn read<R: env::Env + AllocGlobal>(rt: &R) -> io::Result<Option<Task>> {
    let alloc: Global = rt.alloc();
    let words: Vec<String> = env::args(rt)?.skip(1).collect(alloc)?;
    Ok(task_of(words.as_slice()))
}
