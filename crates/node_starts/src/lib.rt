// Where each node's part of the work table starts, as constants for a viewer: for L = 24 a row for p = 2, 4 and 8, with
// an entry for each of nodes 1 to 15, 0 for a node that the tree lacks.
#![tactic(auto)]

ghost use Rattle.std.specs.Prelude.{◌≡◌};
ghost use Rattle.node_starts.specs.NodeStarts.{node_starts};
ghost use Rattle.node_starts.specs.Rule.{TableRule};

pub const NODE_STARTS: [[u32; 15]; 3] = [
    [0, 343, 518, 0, 0, 0, 0, 0, 0, 0, 0, 0, 0, 0, 0],
    [0, 679, 1022, 1365, 1540, 1715, 1890, 0, 0, 0, 0, 0, 0, 0, 0],
    [
        0, 1351, 2030, 2709, 3052, 3395, 3738, 4081, 4256, 4431, 4606, 4781, 4956, 5131, 5306,
    ],
];

// The table.
pub fn node_starts() -> [[u32; 15]; 3]
    ensures table { result ≡ node_starts }
    ensures rule { TableRule result }
{
    NODE_STARTS
}
