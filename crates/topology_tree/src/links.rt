//! Children as lists of siblings.

ghost use Rattle.std.specs.Prelude.{◌≡◌, ◌^◌, ◌<◌, length, replicate};
ghost use Rattle.topology_tree.specs.Forests.{IsClosed};
ghost use Rattle.topology_tree.specs.Links.{IsLinked};

// Each node's last child, and each child's sibling before it.
pub(crate) fn link(
    parents: &[Option<u32>],
    last_child: &mut [Option<u32>],
    earlier: &mut [Option<u32>],
)
    requires few { length parents.now < 2 ^ 32 }
    requires closed { IsClosed parents.now }
    requires last { last_child.old ≡ replicate (length parents.now) None }
    requires earlier { length earlier.old ≡ length parents.now }
    ensures { IsLinked parents.now last_child.new earlier.new }
{
    for (node, parent) in parents.iter().enumerate() {
        if let Some(parent) = *parent {
            earlier[node] = last_child[parent as usize];
            last_child[parent as usize] = Some(node as u32);
        }
    }
}
