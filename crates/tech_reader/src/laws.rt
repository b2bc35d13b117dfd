//! Laws of keys.
ghost use Rattle.std.specs.Prelude.{◌≡◌, true};
ghost use Rattle.file_rules.specs.Names.{has_name_bytes};
ghost use Rattle.tech_reader.specs.Tech.{joined};

/// Joined texts are equal just where their parts are, if the first parts have bytes of names alone. A kind and a name
/// have such bytes, and so has the node of a size: no two of what may stand once have one key.
pub fn joined_parts_are_told_apart(first: &[u8], second: &[u8], third: &[u8], fourth: &[u8])
    requires first { has_name_bytes first.now ≡ true }
    requires third { has_name_bytes third.now ≡ true }
    ensures { joined first.now second.now ≡ joined third.now fourth.now → (first.now ≡ third.now) × (second.now ≡ fourth.now) }
{}
