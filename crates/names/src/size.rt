// The bench's sizes (document 01, "What the bench holds" and "Sizes"). The capacity of a port
// belongs to the type of its counters, in crate ports.

// Nodes of a network, at most.
pub const NODES: usize = 16;

// Links A..H of a node, which are its ports 0..7.
pub const LINKS: usize = 8;

// Links from the switch to the tile.
pub const TILE_LINKS: usize = 4;

// Links from the tile to the switch, which are ports behind those of the links.
pub const FIRST_TILE_PORT: usize = LINKS;

pub const TILE_PORTS: usize = 4;

// The port by which the control unit's replies leave, behind those.
pub const REPLY_PORT: usize = FIRST_TILE_PORT + TILE_PORTS;

// Ports of a node.
pub const PORTS: usize = REPLY_PORT + 1;

// Channel-ends of a node.
pub const ENDS: usize = 32;

// Channels that a header or a destination can name, beside the sink.
pub const CHANNELS: u32 = 32;

// Tokens that a channel-end holds, at most.
pub const END_BUFFER: usize = 8;

// Tokens of a message that a control unit keeps, at most: one more than any whole message has.
pub const UNIT_BUFFER: u32 = 11;

// The channel that takes and forgets.
pub const SINK: u32 = 255;

// Networks of links and circuits.
pub const NETWORKS: u32 = 4;

// Directions of links and of a switch's table.
pub const DIRECTIONS: u32 = 16;

// Numbers that a node can have: those of 16 bits.
pub const NUMBERS: u32 = 65536;

// Bits of a node's number, each with an entry in the direction table.
pub const BITS: u32 = 16;
