//! Random changes of small groups. One book lives through all changes of a group, and is compared with least cuts of graphs that
//! are made anew for each promise and set, with `judge_wide` and with `judge_to_first`.
ghost use Rattle.std.specs.Prelude.{◌<◌, length, IfOk};
ghost use Rattle.st_net.specs.Sets.{MarksOf, is_in};
ghost use Rattle.st_promise.specs.Book.{AreKept, AreNeedsOf, IsBookOf};

use super::*;
use crate::drawn::Dice;
use st_flow::{Graph, MAX_CAPACITY, MAX_EDGES, least_cut};
use st_promise::{ToFirst, Wide, judge_to_first, judge_wide};
use st_samples::group;
use std::thread::Threads;

const DEVICES: u32 = 6;

const LINKS: u32 = 8;

/// Adds a line to a text.
fn add_line(text: &mut String, line: Result<String, AllocError>) -> Result<(), AllocError> {
    text.push_str(line?.as_str())
}

fn add_devices(alloc: Global, text: &mut String) -> Result<(), AllocError> {
    for device in 0..DEVICES {
        add_line(text, format!(in alloc; "device d{device} tor\n"))?;
    }
    Ok(())
}

fn add_links(alloc: Global, text: &mut String, dice: &mut Dice) -> Result<(), AllocError> {
    for link in 0..LINKS {
        let a = dice.roll() % DEVICES;
        let b = dice.roll() % DEVICES;
        if a != b {
            let capacity = 1 + dice.roll() % 9;
            add_line(
                text,
                format!(in alloc; "link l{link} d{a} d{b} {capacity}\n"),
            )?;
        }
    }
    Ok(())
}

fn add_promises(alloc: Global, text: &mut String, dice: &mut Dice) -> Result<(), AllocError> {
    for (a, b) in [(0, 1), (0, 2), (1, 2)] {
        let percent = dice.roll() % 101;
        add_line(text, format!(in alloc; "promise d{a} d{b} {percent}\n"))?;
    }
    Ok(())
}

/// A document of six ToRs, up to eight links of capacities from 1 to 9, and the promises of each two of the first three.
fn small_document(alloc: Global, dice: &mut Dice) -> Result<String, AllocError> {
    let mut text = String::from_str(alloc, "statesman 1\ngroup g\n")?;
    add_devices(alloc, &mut text)?;
    add_links(alloc, &mut text, dice)?;
    add_promises(alloc, &mut text, dice)?;
    Ok(text)
}

/// A set with some of these entities, about seven of eight.
fn thinned(
    alloc: Global,
    topo: &GroupTopo,
    set: &EntitySet,
    dice: &mut Dice,
) -> Result<EntitySet, AllocError>
    requires { MarksOf topo.now set.now }
    ensures { IfOk result (MarksOf topo.now) }
{
    let mut thin = set.copy(alloc)?;
    for device in 0..topo.device_count() {
        if dice.roll() % 16 == 0 {
            thin.remove(Entity::Device(device));
        }
    }
    for link in 0..topo.link_count() {
        if dice.roll() % 8 == 0 {
            thin.remove(Entity::Link(link));
        }
    }
    Ok(thin)
}

/// Adds an edge, where it is one.
fn add_edge(graph: &mut Graph, a: u32, b: u32, capacity: u32) -> Result<(), AllocError> {
    if a < graph.nodes()
        && b < graph.nodes()
        && a != b
        && capacity <= MAX_CAPACITY
        && graph.edges() < MAX_EDGES
    {
        graph.add(a, b, capacity)?;
    }
    Ok(())
}

/// The least cut of two nodes, where they are two.
fn cut_of(alloc: Global, graph: &Graph, a: u32, b: u32) -> Result<u64, AllocError> {
    if a < graph.nodes() && b < graph.nodes() && a != b {
        let cut = least_cut(alloc, graph, a, b)?;
        return Ok(cut.value);
    }
    Ok(0)
}

/// Whether a link is up, with both its ends.
fn is_up(topo: &GroupTopo, up: &EntitySet, link: u32) -> bool
    requires link { link < length topo.now.links }
    requires marks { MarksOf topo.now up.now }
{
    topo.is_sound();
    let (a, b) = topo.ends(link);
    up.has(Entity::Link(link)) && up.has(Entity::Device(a)) && up.has(Entity::Device(b))
}

/// Adds the links of what is up to a graph.
fn add_links_up(topo: &GroupTopo, up: &EntitySet, graph: &mut Graph) -> Result<(), AllocError>
    requires { MarksOf topo.now up.now }
{
    topo.is_sound();
    for link in 0..topo.link_count() {
        if is_up(topo, up, link) {
            let (a, b) = topo.ends(link);
            add_edge(graph, a, b, topo.capacity(link))?;
        }
    }
    Ok(())
}

/// The graph of what is up.
fn graph_of(alloc: Global, topo: &GroupTopo, up: &EntitySet) -> Result<Graph, AllocError>
    requires { MarksOf topo.now up.now }
{
    topo.is_sound();
    let mut graph = Graph::new(alloc, topo.device_count())?;
    add_links_up(topo, up, &mut graph)?;
    Ok(graph)
}

/// The least cut of promise number `i` in the graph of what is up.
fn plain_cut(alloc: Global, topo: &GroupTopo, up: &EntitySet, i: u32) -> Result<u64, AllocError>
    requires promise { i < length topo.now.promises }
    requires marks { MarksOf topo.now up.now }
{
    let promise = topo.promise(i);
    let graph = graph_of(alloc, topo, up)?;
    let cut = cut_of(alloc, &graph, promise.a, promise.b);
    drop(graph);
    cut
}

/// A promise that a change breaks, what it needs and what is left.
#[derive(Clone, Copy, Debug, PartialEq, Eq)]
struct Break {
    promise: u32,
    need: u64,
    has: u64,
}

/// The sets of a change: every entity, and what is up before and after.
#[derive(Drop)]
struct Sets {
    all: EntitySet,
    before: EntitySet,
    after: EntitySet,
}

/// How the change breaks promise number `i`, by three least cuts.
fn plain_break(
    alloc: Global,
    topo: &GroupTopo,
    sets: &Sets,
    i: u32,
) -> Result<Option<Break>, AllocError>
    requires promise { i < length topo.now.promises }
    requires all { MarksOf topo.now sets.now.all }
    requires before { MarksOf topo.now sets.now.before }
    requires after { MarksOf topo.now sets.now.after }
{
    let percent = u64::from(topo.promise(i).percent);
    let most = plain_cut(alloc, topo, &sets.all, i)?;
    let need = percent.saturating_mul(most).div_ceil(100);
    let least = need.max(1);
    let has = plain_cut(alloc, topo, &sets.after, i)?;
    if has < least && plain_cut(alloc, topo, &sets.before, i)? >= least {
        return Ok(Some(Break {
            promise: i,
            need,
            has,
        }));
    }
    Ok(None)
}

/// The first promise that the change breaks.
fn plain_judge(alloc: Global, topo: &GroupTopo, sets: &Sets) -> Result<Option<Break>, AllocError>
    requires all { MarksOf topo.now sets.now.all }
    requires before { MarksOf topo.now sets.now.before }
    requires after { MarksOf topo.now sets.now.after }
{
    for i in 0..topo.promise_count() {
        if let Some(broken) = plain_break(alloc, topo, sets, i)? {
            return Ok(Some(broken));
        }
    }
    Ok(None)
}

fn break_of(broken: &Option<Broken>) -> Option<Break> {
    match broken {
        Some(broken) => Some(Break {
            promise: promise_of(broken.of),
            need: broken.need,
            has: broken.has,
        }),
        None => None,
    }
}

/// Whether the first broken promise was found, and each up to it told as it is, or each where none is.
fn are_told(told: &ToFirst, plain: Option<Break>, holds: &[bool]) -> bool {
    let count = match plain {
        Some(broken) => broken.promise as usize + 1,
        None => holds.len(),
    };
    break_of(&told.first) == plain
        && told.holds.len() == count
        && holds.starts_with(told.holds.as_slice())
}

/// What was counted of changes: how many were judged, how many break a promise, and how many are judged in two ways.
#[derive(Clone, Copy)]
struct Tally {
    judged: u32,
    broken: u32,
    wrong: u32,
}

impl Tally {
    /// Counts a change that breaks a promise or none, and that is judged in one way or in two.
    fn count(&mut self, breaks: bool, is_same: bool) {
        self.judged = self.judged.saturating_add(1);
        if breaks {
            self.broken = self.broken.saturating_add(1);
        }
        if !is_same {
            self.wrong = self.wrong.saturating_add(1);
        }
    }
}

/// Whether promises up to the first broken one are told as these hold, where of so many is known that they do.
fn is_told(
    rt: &(impl Threads + Sync),
    alloc: Global,
    topo: &GroupTopo,
    needs: &[u64],
    known: &[bool],
    sets: &Sets,
    plain: Option<Break>,
    holds: &[bool],
) -> Result<bool, AllocError>
    requires needs { AreNeedsOf topo.now needs.now }
    requires known { AreKept topo.now (is_in sets.now.after) known.now }
    requires before { MarksOf topo.now sets.now.before }
    requires after { MarksOf topo.now sets.now.after }
{
    let told = judge_to_first(rt, alloc, topo, needs, known, &sets.before, &sets.after)?;
    let are_told = are_told(&told, plain, holds);
    drop(told);
    Ok(are_told)
}

/// The same where what the kept flows show is known.
fn is_told_behind(
    rt: &(impl Threads + Sync),
    alloc: Global,
    topo: &GroupTopo,
    book: &Book,
    sets: &Sets,
    plain: Option<Break>,
    holds: &[bool],
) -> Result<bool, AllocError>
    requires book { IsBookOf topo.now book.now.of }
    requires before { MarksOf topo.now sets.now.before }
    requires after { MarksOf topo.now sets.now.after }
{
    let shown = book.shown_in(topo, &sets.after)?;
    let is_told = is_told(
        rt,
        alloc,
        topo,
        book.needs(),
        shown.as_slice(),
        sets,
        plain,
        holds,
    );
    drop(shown);
    is_told
}

/// Whether the book finds that these hold after a change.
fn is_held(
    topo: &GroupTopo,
    book: &Book,
    up: &EntitySet,
    holds: &[bool],
) -> Result<bool, AllocError>
    requires book { IsBookOf topo.now book.now.of }
    requires up { MarksOf topo.now up.now }
{
    let held = book.held_in(topo, up)?;
    Ok(held.as_slice() == holds)
}

/// Whether all promises at once, and those up to the first broken one, are judged so too.
fn is_wide_same(
    rt: &(impl Threads + Sync),
    alloc: Global,
    topo: &GroupTopo,
    book: &Book,
    sets: &Sets,
    plain: Option<Break>,
) -> Result<bool, AllocError>
    requires book { IsBookOf topo.now book.now.of }
    requires before { MarksOf topo.now sets.now.before }
    requires after { MarksOf topo.now sets.now.after }
{
    let wide = judge_wide(rt, alloc, topo, book.needs(), &sets.before, &sets.after)?;
    let is_same = is_same_behind(rt, alloc, topo, book, sets, plain, &wide);
    drop(wide);
    is_same
}

fn is_same_behind(
    rt: &(impl Threads + Sync),
    alloc: Global,
    topo: &GroupTopo,
    book: &Book,
    sets: &Sets,
    plain: Option<Break>,
    wide: &Wide,
) -> Result<bool, AllocError>
    requires book { IsBookOf topo.now book.now.of }
    requires before { MarksOf topo.now sets.now.before }
    requires after { MarksOf topo.now sets.now.after }
{
    let holds = wide.holds.as_slice();
    let is_held = is_held(topo, book, &sets.after, holds)?;
    let is_told = is_told(rt, alloc, topo, book.needs(), &[], sets, plain, holds)?;
    let is_told_behind = is_told_behind(rt, alloc, topo, book, sets, plain, holds)?;
    Ok(break_of(&wide.first) == plain && is_held && is_told && is_told_behind)
}

/// How a book judges a change.
fn judged_by(topo: &GroupTopo, book: &mut Book, sets: &Sets) -> Result<Option<Break>, AllocError>
    requires book { IsBookOf topo.now book.old.of }
    requires before { MarksOf topo.now sets.now.before }
    requires after { MarksOf topo.now sets.now.after }
    ensures book { IsBookOf topo.now book.new.of }
{
    let broken = book.judge_pairs(topo, &sets.before, &sets.after)?;
    Ok(break_of(&broken))
}

/// Judges a change in each way, and counts it.
fn judge(
    rt: &(impl Threads + Sync),
    alloc: Global,
    topo: &GroupTopo,
    book: &mut Book,
    sets: &Sets,
    tally: &mut Tally,
) -> Result<(), AllocError>
    requires book { IsBookOf topo.now book.old.of }
    requires all { MarksOf topo.now sets.now.all }
    requires before { MarksOf topo.now sets.now.before }
    requires after { MarksOf topo.now sets.now.after }
    ensures book { IsBookOf topo.now book.new.of }
{
    let plain = plain_judge(alloc, topo, sets)?;
    let judged = judged_by(topo, book, sets)?;
    let is_wide_same = is_wide_same(rt, alloc, topo, &*book, sets, plain)?;
    tally.count(plain.is_some(), judged == plain && is_wide_same);
    Ok(())
}

/// A change that is drawn.
fn drawn(alloc: Global, topo: &GroupTopo, dice: &mut Dice) -> Result<Sets, AllocError>
    ensures all { IfOk result (λ sets. MarksOf topo.now sets.all) }
    ensures before { IfOk result (λ sets. MarksOf topo.now sets.before) }
    ensures after { IfOk result (λ sets. MarksOf topo.now sets.after) }
{
    let all = every_entity(alloc, topo)?;
    let before = thinned(alloc, topo, &all, dice)?;
    let after = thinned(alloc, topo, &before, dice)?;
    Ok(Sets { all, before, after })
}

/// Draws a change, judges it in each way, and counts it.
fn judge_drawn(
    rt: &(impl Threads + Sync),
    alloc: Global,
    topo: &GroupTopo,
    book: &mut Book,
    dice: &mut Dice,
    tally: &mut Tally,
) -> Result<(), AllocError>
    requires book { IsBookOf topo.now book.old.of }
    ensures book { IsBookOf topo.now book.new.of }
{
    let sets = drawn(alloc, topo, dice)?;
    let judged = judge(rt, alloc, topo, book, &sets, tally);
    drop(sets);
    judged
}

/// Twenty changes of one group, by a book of it.
fn judge_by(
    rt: &(impl Threads + Sync),
    alloc: Global,
    topo: &GroupTopo,
    book: &mut Book,
    dice: &mut Dice,
    tally: &mut Tally,
) -> Result<(), AllocError>
    requires { IsBookOf topo.now book.old.of }
{
    for _ in 0..20 {
        judge_drawn(rt, alloc, topo, &mut *book, dice, tally)?;
    }
    Ok(())
}

/// The same with one book.
fn judge_changes(
    rt: &(impl Threads + Sync),
    alloc: Global,
    topo: &GroupTopo,
    dice: &mut Dice,
    tally: &mut Tally,
) -> Result<(), AllocError> {
    let mut book = Book::start(alloc, topo)?;
    let judged = judge_by(rt, alloc, topo, &mut book, dice, tally);
    drop(book);
    judged
}

/// The same of a group that is drawn.
fn judge_group(
    rt: &(impl Threads + Sync),
    alloc: Global,
    dice: &mut Dice,
    tally: &mut Tally,
) -> Result<(), Fail> {
    let text = small_document(alloc, dice)?;
    let topo = group(alloc, text.as_str());
    drop(text);
    let topo = topo?;
    let judged = judge_changes(rt, alloc, &topo, dice, tally);
    drop(topo);
    Ok(judged?)
}

fn judge_groups(rt: &(impl Threads + Sync), alloc: Global) -> Result<Tally, Fail> {
    let mut dice = Dice { state: 7 };
    let mut tally = Tally {
        judged: 0,
        broken: 0,
        wrong: 0,
    };
    for _ in 0..20 {
        judge_group(rt, alloc, &mut dice, &mut tally)?;
    }
    Ok(tally)
}

#[test]
fn a_book_that_lives_through_changes_judges_as_least_cuts_do(rt: HostRuntime) -> Result<(), Fail> {
    let tally = judge_groups(&rt, rt.alloc())?;
    let are_many = tally.judged >= 200 && tally.broken >= 20;
    assert_eq!(&rt; (are_many, tally.wrong), (true, 0));
    Ok(())
}
