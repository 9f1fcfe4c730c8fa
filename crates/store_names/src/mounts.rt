//! What locks keep apart on a mount, by the kernel's table of mounts.
ghost use Rattle.std.specs.Prelude.{◌≡◌, ◌↔◌, ◌++◌, IfOk, IsTrue, string_bytes};
ghost use Rattle.store_names.specs.Mounts.{IsAtOrBelow, as_in_table, is_among, is_local, letter_in_table, locking_of, may_follow};
ghost use Rattle.store_names.specs.Mounts.{of_clients, of_one_host, of_servers};

use crate::texts::after;
use std::alloc::{AllocError, Global};

/// Whom a lock by flock(2) keeps out on a file system.
#[derive(Clone, Copy, Debug, PartialEq, Eq)]
pub enum Locking {
    /// It is this host's alone, so each lock keeps out whoever may be there.
    OneHost,
    /// Other hosts may have it too. A lock of a file keeps them out, and one of a folder doesn't.
    SharedFiles,
    /// Other hosts may have it too, and nothing is known of its locks.
    Unknown,
}

/// The types of file systems that one host has at a time.
const OF_ONE_HOST: &[&str] = &[
    "bcachefs", "btrfs", "ext2", "ext3", "ext4", "f2fs", "jfs", "overlay", "tmpfs", "xfs", "zfs",
];

/// Those of which flock(2) says that their clients take a lock of a file at the server.
const OF_SERVERS: &[&str] = &["nfs", "nfs4"];

/// The options by which such a client takes locks at its own host alone.
const OF_CLIENTS: &[&str] = &["local_lock=all", "local_lock=flock", "nolock"];

/// A line of the table: the number of a mount, that of the mount which it is on, where it is, and what its locks are.
#[derive(Clone, Copy)]
struct Mount<'t> {
    number: &'t str,
    on: &'t str,
    point: &'t str,
    locking: Locking,
}

/// Whom locks keep out at an absolute path without links, by the text of Linux's `/proc/self/mountinfo`. A path is gone along as the kernel
/// does, from mount to mount, so that what a later mount hides isn't found.
pub fn locking_at(alloc: Global, table: &str, path: &str) -> Result<Locking, AllocError> {
    let path = as_in_table(alloc, path)?;
    let mut reached = None;
    for _mount in table.lines() {
        match next_mount(table, path.as_str(), reached) {
            Some(mount) => reached = Some(mount),
            None => break,
        }
    }
    Ok(match reached {
        Some(mount) => mount.locking,
        None => Locking::Unknown,
    })
}

/// The mount that is met next on the way to a path after one, or that which is met first: of those on it the one with the shortest path,
/// and of several at one place the last.
fn next_mount<'t>(table: &'t str, path: &str, from: Option<Mount<'t>>) -> Option<Mount<'t>> {
    let mut next: Option<Mount<'t>> = None;
    for line in table.lines() {
        let Some(mount) = mount_of(line) else {
            continue;
        };
        if !is_at_or_below(path, mount.point) || !is_on(table, mount, from) {
            continue;
        }
        match next {
            Some(other) if other.point.len() < mount.point.len() => {}
            _ => next = Some(mount),
        }
    }
    next
}

/// Whether a mount is on this one, or on none that the table has.
fn is_on(table: &str, mount: Mount<'_>, below: Option<Mount<'_>>) -> bool {
    let is_on_itself = mount.on == mount.number;
    match below {
        Some(below) => !is_on_itself && mount.on == below.number,
        None => is_on_itself || !has_number(table, mount.on),
    }
}

/// Whether the table has a mount with this number.
fn has_number(table: &str, number: &str) -> bool {
    table.lines().any(|line| mount_of(line).is_some_and(|mount| mount.number == number))
}

/// A path as the table has it: with octal numbers for what would end a field, and for what they begin with.
fn as_in_table(alloc: Global, path: &str) -> Result<String, AllocError>
    ensures { IfOk result (λ text. string_bytes text ≡ as_in_table path.now) }
{
    let mut text = String::new(alloc);
    for letter in path.chars() {
        push_as_in_table(&mut text, letter)?;
    }
    Ok(text)
}

/// Puts a letter at a text's end as the table has it.
fn push_as_in_table(text: &mut String, letter: char) -> Result<(), AllocError>
    ensures { IfOk result (λ _. string_bytes text.new ≡ string_bytes text.old ++ letter_in_table letter) }
{
    match letter {
        ' ' => text.push_str("\\040"),
        '\t' => text.push_str("\\011"),
        '\n' => text.push_str("\\012"),
        '\\' => text.push_str("\\134"),
        _ => text.push(letter),
    }
}

/// What a line of the table says, if it has that form.
fn mount_of(line: &str) -> Option<Mount<'_>> {
    let (place, system) = line.split_once(" - ")?;
    let mut places = place.split(' ');
    let number = places.next()?;
    let on = places.next()?;
    let point = places.nth(2)?;
    let mut fields = system.split(' ');
    let kind = fields.next()?;
    let options = fields.nth(1).unwrap_or("");
    Some(Mount {
        number,
        on,
        point,
        locking: locking_of(kind, options),
    })
}

/// What the locks are on a file system of this kind that is mounted with these options.
fn locking_of(kind: &str, options: &str) -> Locking
    ensures { result ≡ locking_of kind.now options.now }
{
    if is_of_one_host(kind) {
        return Locking::OneHost;
    }
    if is_of_servers(kind) && !is_local(options) {
        return Locking::SharedFiles;
    }
    Locking::Unknown
}

/// Whether a kind of file systems is one that one host has at a time.
fn is_of_one_host(kind: &str) -> bool
    ensures { result ≡ is_among kind.now of_one_host }
{
    OF_ONE_HOST.contains(&kind)
}

/// Whether a kind of file systems is one whose clients take a lock of a file at the server.
fn is_of_servers(kind: &str) -> bool
    ensures { result ≡ is_among kind.now of_servers }
{
    OF_SERVERS.contains(&kind)
}

/// Whether a client takes locks at its own host alone by this option.
fn is_of_clients(option: &str) -> bool
    ensures { result ≡ is_among option.now of_clients }
{
    OF_CLIENTS.contains(&option)
}

/// Whether a client takes locks at its own host alone by one of these options.
fn is_local(options: &str) -> bool
    ensures { result ≡ is_local options.now }
{
    options.split(',').any(is_of_clients)
}

/// Whether a path is a mount point or below it.
fn is_at_or_below(path: &str, point: &str) -> bool
    ensures { IsTrue result ↔ IsAtOrBelow path.now point.now }
{
    match after(path, point) {
        Some(rest) => may_follow(point, rest),
        None => false,
    }
}

/// Whether a path may have this after a mount point that it is at or below.
fn may_follow(point: &str, rest: &str) -> bool
    ensures { result ≡ may_follow point.now rest.now }
{
    point == "/" || rest.is_empty() || rest.starts_with('/')
}
