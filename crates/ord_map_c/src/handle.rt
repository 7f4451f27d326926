//! The handle of an entry.
ghost use Rattle.std.specs.Prelude.{◌≡◌, ◌≢◌, ◌⊎◌, Some, None};

/// The handle of an entry: it finds that entry, and nothing once that is removed. Zeros find
/// nothing.
#[repr(C)]
#[derive(Clone, Copy, Drop)]
pub struct Handle {
    pub index: u32,
    pub generation: u32,
}

// Writes a handle, if there is one, and gives the status.
pub(crate) fn write_found(found: Option<Handle>, handle: &mut Handle) -> u8
    ensures found { result ≡ 0 → found ≡ Some handle.new }
    ensures none { result ≡ 7 → found ≡ None }
    ensures unwritten { result ≢ 0 → handle.new ≡ handle.old }
    ensures statuses { (result ≡ 0) ⊎ (result ≡ 7) }
{
    match found {
        Some(own) => {
            *handle = own;
            0
        }
        None => 7,
    }
}
