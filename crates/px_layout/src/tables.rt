// The lengths of tables.
ghost use Rattle.std.specs.Prelude.{◌≡◌, ◌<◌, ◌^◌};
ghost use Rattle.px_meaning.specs.Entry.{table_size};

/// The length in bytes of a table of `entries` entries, fewer than 65,536. TIFF 6.0 section 2, "Image File
/// Directory".
pub fn table_len(entries: usize) -> u64
    requires { entries < 2 ^ 16 }
    ensures { result ≡ table_size entries }
{
    u64::from(px_meaning::table_len(entries as u16))
}
