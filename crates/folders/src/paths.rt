//! Paths of names in folders.
ghost use Rattle.folders.specs.Files.{IsIn};

/// The folder that a path's last name is in: `"/"` of a name in the root, and `"."` of one in the folder that a program works in.
pub fn folder_of(path: &str) -> &str
    ensures { IsIn result.now path.now }
{
    match path.rsplit_once('/') {
        Some((folder, _)) if folder.is_empty() => "/",
        Some((folder, _)) => folder,
        None => ".",
    }
}
