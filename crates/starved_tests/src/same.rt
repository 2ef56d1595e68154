//! What is compared: contents, and commands with the bytes that they are written as.
use host_shard::{Content, Records};
use log_codec::{Command, write_path_command};

/// Both contents wait with the same element and have the same records, touched as often.
pub fn are_same(content: &Content, other: &Content) -> bool {
    if content.pending() != other.pending() {
        return false;
    }
    match (content, other) {
        (Content::Cold(shard), Content::Cold(twin)) => have_same(&shard.records, &twin.records),
        (Content::Hot(found), Content::Hot(twin)) => found.touches == twin.touches,
        (Content::Vacant, Content::Vacant) => true,
        _ => false,
    }
}

// Both have the same records.
fn have_same(records: &Records, others: &Records) -> bool {
    let mut rest = others.iter();
    for (path, kept) in records.iter() {
        let Some((other, twin)) = rest.next() else {
            return false;
        };
        if !path.is_same(other) || kept.value != twin.value || kept.touches != twin.touches {
            return false;
        }
    }
    rest.next().is_none()
}

/// These commands are written as these bytes.
pub fn are_written_as(commands: &[Command], bytes: &[u8]) -> bool {
    let mut rest = bytes;
    for command in commands {
        match rest.strip_prefix(write_path_command(command).as_slice()) {
            Some(more) => rest = more,
            None => return false,
        }
    }
    rest.is_empty()
}
