ghost use Rattle.std.specs.Prelude.{◌≡◌};

use design_nets::DesignNets;

/// The name of the top module.
pub(crate) fn top_name<'a>(design: &DesignNets<'a>) -> &'a [u8]
    ensures { result.now ≡ design.now.top }
{
    let place = design.hierarchy().top();
    design.modules()[place].module().name.bytes()
}
