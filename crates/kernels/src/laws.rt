// What holds of all trees, as the contract of a function.
ghost use Rattle.kernels.specs.Trees.{TreesFuse};

// What a tree comes to, operation after operation over whole arrays, has the numbers that the tree has place by place.
pub fn fused_stands() -> u8
    ensures { TreesFuse }
{
    0
}
