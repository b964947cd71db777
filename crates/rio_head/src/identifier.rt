//! The identifier of a file.
ghost use Rattle.std.specs.Prelude.{◌≡◌};
ghost use Rattle.rio_head.specs.Uuid.{uuid_of_file};

use uuid::Uuid;

/// The identifier of a file of this name, as header and directory record have it: the number 1 in two bytes, and the UUID
/// of version 5 of the name in the namespace of URLs.
pub fn file_uuid(name: &[u8]) -> [u8; 18]
    ensures { result ≡ uuid_of_file name.now }
{
    let uuid = Uuid::new_v5(&Uuid::NAMESPACE_URL, name);
    let [a, b, c, d, e, f, g, h, i, j, k, l, m, n, o, p] = uuid.into_bytes();
    [0, 1, a, b, c, d, e, f, g, h, i, j, k, l, m, n, o, p]
}
