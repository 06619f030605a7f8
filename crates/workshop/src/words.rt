// The words behind the name of a task.
use anyhow::bail;
use std::alloc::Global;

// Before the path of a rule file.
const FILE: &str = "--file";

// The words of a task that takes a rule file.
#[derive(Drop)]
pub struct Words {
    // The path behind `--file`, if that is there. Without it the rule file comes on standard input.
    pub path: Option<String>,
    // The other words, in their order.
    pub others: Vec<String>,
}

impl Words {
    // Takes the words apart. It fails where `--file` stands twice or has no path behind it, or where memory is wanting.
    pub fn of(heap: Global, words: &[String]) -> anyhow::Result<Words> {
        let mut path: Option<String> = None;
        let mut others = Vec::new(heap);
        let mut is_path = false;
        for word in words {
            if is_path {
                path = Some(word.clone()?);
                is_path = false;
            } else if word.as_str() != FILE {
                others.push(word.clone()?)?;
            } else if path.is_some() {
                bail!("{FILE} stands twice");
            } else {
                is_path = true;
            }
        }
        if is_path {
            bail!("no path stands behind {FILE}");
        }
        Ok(Words { path, others })
    }
}

// The path of the rule file, for a task that takes no other words. It fails where one stands there too.
pub fn path_alone(heap: Global, task: &str, words: &[String]) -> anyhow::Result<Option<String>> {
    let Words { path, others } = Words::of(heap, words)?;
    if let Some(word) = others.first() {
        bail!("{task} takes no words: {word:?}");
    }
    Ok(path)
}
