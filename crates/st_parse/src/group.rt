//! The arms of CASE as far as they are read.
ghost use Rattle.std.specs.Prelude.{◌≡◌};
ghost use Rattle.phrase.specs.Reads.{OnlyMemory};
ghost use Rattle.st_parse.specs.Statements as spec;

use phrase::Stop;
use plc_tree::tree::{Choice, Label, Stmt};
use sqlite_items::Items;
use std::alloc::Global;

/// The arms that are whole, and the labels and statements of the one that is read.
#[derive(Drop)]
pub struct Group {
    pub whole: Items<Choice>,
    pub labels: Items<Label>,
    pub body: Items<Stmt>,
}

/// No whole arm, and these labels of the first one.
pub fn begun(alloc: Global, labels: Items<Label>) -> Group
    ensures { result ≡ spec.begun labels }
{
    Group {
        whole: Items::new(alloc),
        labels,
        body: Items::new(alloc),
    }
}

/// All arms, the one that is read included.
pub fn group_end(group: Group) -> Result<Items<Choice>, Stop>
    ensures { OnlyMemory result (spec.group_end group) }
{
    let Group {
        mut whole,
        labels,
        body,
    } = group;
    whole.push(Choice { labels, body })?;
    Ok(whole)
}

/// The group where the arm that is read has ended, and these labels begin the next one.
pub fn next_group(alloc: Global, group: Group, labels: Items<Label>) -> Result<Group, Stop>
    ensures { OnlyMemory result (spec.next_group group labels) }
{
    Ok(Group {
        whole: group_end(group)?,
        labels,
        body: Items::new(alloc),
    })
}

/// The group with one statement more in the arm that is read.
pub fn longer(group: Group, stmt: Stmt) -> Result<Group, Stop>
    ensures { OnlyMemory result (spec.longer group stmt) }
{
    let Group {
        whole,
        labels,
        mut body,
    } = group;
    body.push(stmt)?;
    Ok(Group {
        whole,
        labels,
        body,
    })
}
