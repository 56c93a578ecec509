//! The limits of a job. Each number is written only here: code and definitions use these constants.

ghost use Rattle.std.specs.Prelude.{◌≡◌};
ghost use Rattle.node_core.specs.Nodes.{max_nodes};

/// The number of box registers.
pub const REGISTERS: usize = 32_768;

/// The greatest number of lists that are open at the same time.
pub const MAX_OPEN_LISTS: usize = 64;

/// The greatest number of items in an open list.
pub const MAX_ITEMS: usize = 65_536;

/// The greatest number of nodes in a list.
pub const MAX_NODES: usize = 131_072;

/// The greatest depth to which boxes nest, including the outermost box.
pub const MAX_DEPTH: u64 = 200;

/// The greatest number of pages that a job ships.
pub const MAX_PAGES: u32 = 65_535;

/// The greatest number of nodes that a job ships, on all its pages together.
pub const MAX_SHIPPED_NODES: u64 = 16_777_216;

/// The greatest number of bytes in the text of a special.
pub const MAX_SPECIAL_TEXT: usize = 65_535;

/// The greatest number of bytes of special texts that a job ships, on all its pages together.
pub const MAX_SHIPPED_TEXT: u64 = 1_048_576;

/// The limits of a job are these numbers.
pub fn limits_of_a_job()
    ensures registers { REGISTERS ≡ 32768 }
    ensures open_lists { MAX_OPEN_LISTS ≡ 64 }
    ensures items { MAX_ITEMS ≡ 65536 }
    ensures nodes { MAX_NODES ≡ max_nodes }
    ensures depth { MAX_DEPTH ≡ 200 }
    ensures pages { MAX_PAGES ≡ 65535 }
    ensures shipped_nodes { MAX_SHIPPED_NODES ≡ 16777216 }
    ensures special_text { MAX_SPECIAL_TEXT ≡ 65535 }
    ensures shipped_text { MAX_SHIPPED_TEXT ≡ 1048576 }
{}
