//! The block of a source, by node.

ghost use Rattle.std.specs.Prelude.{◌≡◌, ◌≢◌, ◌≤◌, ◌<◌, ◌+◌, ◌-◌, ◌==◌, ◌^◌, if◌then◌else◌, All, Contains, IfErr, IfOk, IfSome, IsTrue, ◌↔◌, pos, slice_set};
ghost use Rattle.dimacs_records.specs.declared.reasons.Reason.TheVariants as reasons;
ghost use Rattle.dimacs_records.specs.Ranges.{IsWhole};
ghost use Rattle.dimacs_claims.specs.{declared.label_list.Label.{Label}, Labels.{BlockValue, IsBlock, IsItem}};
ghost use Rattle.dimacs_fill.specs.{declared.error.FillError.TheVariants.{Node}, Filling.{filled}};
ghost use Rattle.dimacs_fill.specs.BlockFilled.{HasBlock, HasItems, RefusesBlock, distances_of, item_of, preds_of};
ghost use Rattle.dimacs_fill.specs.inside.BlockFilled.{TestsItems, TestsLabels};

use crate::error::FillError;
use crate::filling::fill;
use dimacs_claims::{Block, LabelList, Labels};
use dimacs_records::Reason;

/// The block of this source, if its numbers can be items. Refuses a source without a block.
pub(crate) fn fitting_block(labels: &Labels, source: u32) -> Result<&Block, FillError>
    ensures found { IfOk result (λ block. HasBlock labels.now source block.now × HasItems block.now) }
    ensures lawful { IfOk result (λ block. IsBlock labels.now.nodes block.now) }
    ensures refused { IfErr result (RefusesBlock labels.now source) }
{
    let block = block_of(labels.blocks(), source)?;
    items_hold(block)?;
    Ok(block)
}

fn block_of(blocks: &[Block], source: u32) -> Result<&Block, FillError>
    ensures found { IfOk result (λ block. Contains blocks.now block.now × (block.now.source ≡ source)) }
    ensures missing { IfErr result (λ error. (error ≡ Node source reasons.BlockMissing) × All (λ (b : BlockValue). b.source ≢ source) blocks.now) }
{
    for block in blocks {
        if block.source() == source {
            return Ok(block);
        }
    }
    Err(FillError::Node(source, Reason::BlockMissing))
}

/// Refuses a radius that can't be an item, at the source, then the first label whose distance can't.
fn items_hold(block: &Block) -> Result<(), FillError>
    ensures { TestsItems block.now result }
{
    if !radius_holds(block.radius()) {
        return Err(FillError::Node(block.source(), Reason::NumberRange));
    }
    labels_hold(block.labels())
}

fn radius_holds(radius: Option<i128>) -> bool
    ensures { IsTrue result ↔ IfSome radius IsItem }
{
    match radius {
        Some(radius) => is_item(radius),
        None => true,
    }
}

fn labels_hold(labels: &LabelList) -> Result<(), FillError>
    ensures { TestsLabels labels.now result }
{
    for i in 0..labels.len() {
        let label = labels.at(i);
        if !is_item(label.dist) {
            return Err(FillError::Node(label.id, Reason::NumberRange));
        }
    }
    Ok(())
}

/// Whether the number can be an item: it fits into 64 bits, and isn't their greatest, which stands for none.
fn is_item(number: i128) -> bool
    ensures { IsTrue result ↔ IsItem number }
{
    number >= i128::from(i64::MIN) && number < i128::from(i64::MAX)
}

/// The radius of a block; `i64::MAX` for none.
pub(crate) fn radius_item(radius: Option<i128>) -> i64
    requires { IfSome radius IsItem }
    ensures { result ≡ item_of radius }
{
    match radius {
        Some(radius) => radius as i64,
        None => i64::MAX,
    }
}

/// Copies the distance of each node, as many as fit: 0 at the source, `i64::MAX` at a node without a label.
pub(crate) fn fill_distances(nodes: u32, block: &Block, distances: &mut [i64])
    requires lawful { IsBlock nodes block.now }
    requires items { All (λ (l : Label). IsItem l.dist) block.now.labels }
    ensures { distances.new ≡ filled (distances_of nodes block.now) distances.old }
{
    let source = block.source();
    fill(
        distances,
        nodes as usize,
        |i|
            requires { i + 1 < 2 ^ 32 }
            ensures { result ≡ (if source == i + 1 then pos 0 else pos (2 ^ 63 - 1)) }
        { if i as u32 + 1 == source { 0 } else { i64::MAX } },
    );
    let labels = block.labels();
    for i in 0..labels.len() {
        let label = labels.at(i);
        set_item(distances, label.id, whole(label.dist));
    }
}

fn whole(number: i128) -> i64
    requires { IsWhole number }
    ensures { result ≡ number }
{
    number as i64
}

/// Copies the predecessor of each node, as many as fit: 0 at a node without a label.
pub(crate) fn fill_predecessors(nodes: u32, block: &Block, predecessors: &mut [u32])
    requires { IsBlock nodes block.now }
    ensures { predecessors.new ≡ filled (preds_of nodes block.now) predecessors.old }
{
    fill(
        predecessors,
        nodes as usize,
        |_i|
            ensures { result ≡ 0 }
        { 0 },
    );
    let labels = block.labels();
    for i in 0..labels.len() {
        let label = labels.at(i);
        set_item(predecessors, label.id, label.pred);
    }
}

/// Sets the item of a node, if it fits.
#[inline(always)]
fn set_item<T: Copy>(items: &mut [T], id: u32, item: T)
    requires { 1 ≤ id }
    ensures { items.new ≡ slice_set items.old (id - 1) item }
{
    if id as usize <= items.len() {
        items[id as usize - 1] = item;
    }
}
