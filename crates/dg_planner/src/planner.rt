//! The graph of an index with the least cost of each node; plans of nodes.
ghost use Rattle.std.specs.Prelude.{◌≡◌, ℕ, ◌<◌, ◌≤◌, ◌^◌, List, [], ◌∷◌, length, zip, IfOk};
ghost use Rattle.std.specs.List.{All, AllZip, Contains, sum};
ghost use Rattle.dg_history.specs.declared.node.Key.{Key};
ghost use Rattle.dg_history.specs.declared.node.NodeId.TheVariants.{Root};
ghost use Rattle.dg_plan.specs.CertificateLines.{potential_in};
ghost use Rattle.dg_plan.specs.IndexGraph.{arcs_of, edges_of, nodes_of, lists_before};
ghost use Rattle.dg_plan.specs.EnteredRecords.{EntersOnce};
ghost use Rattle.dg_plan.specs.Walks.{AllHaveLeast, ArePotentials, AreSingles, IsCertificate, IsPlan, IsPotential, IsTree, Leads, steps_of, tree_weight, weight_of};
ghost use Rattle.dg_catalogue.specs.Shapes.{IsShape};
ghost use Rattle.dg_planner.specs.AskedLengths.{asked_length_of};
ghost use Rattle.dg_planner.specs.Bases.{HasBases, ground_of, ground_with};
ghost use Rattle.dg_planner.specs.Trees.{grafts_in, node_grafts};
ghost use Rattle.dg_planner.specs.Whole.{FARTHEST, TREE_WEIGHT_MAX};

use crate::Base;
use crate::build::build_edges;
use crate::links::make_links;
use crate::node_order::{Form, level_starts, node_count, node_index};
use crate::nodes::list_nodes;
use crate::tree::{Graft, Tree, costs_now, graft_at, grow_on, weight_at};
use dg_catalogue::{Catalogue, Shape};
use dg_graph::Columns;
use dg_history::NodeId;
use dg_path::{Adjacency, Cost, Link, Route, costs_from, route_to, thread};
use dg_plan::Edge;
use std::alloc::{AllocError, Global};
use std::marker::Model;

/// The graph of an index for the asked columns, and the least cost of each of its nodes from the root.
#[derive(Drop)]
pub struct Planner {
    form: Form,
    edges: Vec<Edge>,
    // How many interior nodes are below each height.
    starts: Vec<u32>,
    // The edges by the indices of their ends in the order of nodes, and those that leave and enter each node.
    links: Vec<Link>,
    outs: Adjacency,
    ins: Adjacency,
    // The least cost of each node, in the order of nodes.
    costs: Vec<Cost>,
}

impl Model for Planner {
    ghost use Rattle.dg_plan.specs.IndexGraph.{nodes_of};
    ghost use Rattle.dg_planner.specs.Order.{bare_ground};
    ghost use Rattle.dg_planner.specs.Whole.{PlannerGraph, IsWhole};

    ghost Value = { PlannerGraph };

    ghost view = { λ p. record { nodes = nodes_of (bare_ground p.form.leaves p.form.arity p.form.memory); edges = p.edges.items } };

    ghost invariant = { λ p. IsWhole (bare_ground p.form.leaves p.form.arity p.form.memory) p.edges.items p.starts.items p.links.items p.outs p.ins p.costs.items };
}

// What the plan of each target from the root weighs, and what they weigh together.
#[derive(Drop)]
struct Singles {
    weights: Vec<u64>,
    sum: u64,
}

// What each target adds to a tree, and what they weigh together.
#[derive(Drop)]
struct Grown {
    grafts: Vec<Graft>,
    weight: u64,
}

impl Planner {
    /// The graph of an index of this shape, and the least costs in it. A step that reads a record weighs
    /// the bytes of its asked columns, by the catalogue. The bases can serve, and each is the graph of a
    /// node of the graph; `memory` says whether the graph after all events is in memory. Every node is reached,
    /// so that both ends of each edge have a least cost. An `Err` says that memory ran out; so it does where the
    /// graph would have 2^32 - 1 edges.
    pub fn new(
        alloc: Global,
        shape: Shape,
        catalogue: &Catalogue,
        cols: Columns,
        bases: &[Base],
        memory: bool,
    ) -> Result<Planner, AllocError>
        requires shape { IsShape shape }
        requires bases { HasBases (ground_of shape catalogue.now cols bases.now memory) }
        ensures nodes { IfOk result (λ p. p.nodes ≡ nodes_of (ground_of shape catalogue.now cols bases.now memory)) }
        ensures edges { IfOk result (λ p. p.edges ≡ edges_of (ground_of shape catalogue.now cols bases.now memory)) }
        ensures reached { IfOk result (λ p. AllHaveLeast (arcs_of p.edges) (Root ∷ [])) }
    {
        // Its clauses bound the weights of walks.
        catalogue.facts();
        let form = Form {
            leaves: shape.leaves(),
            arity: shape.k,
            memory,
        };
        Planner::make(alloc, form, catalogue, cols, bases)
    }

    // The graph of this form.
    fn make(
        alloc: Global,
        form: Form,
        catalogue: &Catalogue,
        cols: Columns,
        bases: &[Base],
    ) -> Result<Planner, AllocError>
        requires leaves { form.leaves < 2 ^ 28 }
        requires low { 2 ≤ form.arity }
        requires high { form.arity ≤ 64 }
        requires bases { HasBases (ground_with form.leaves form.arity form.memory bases.now (asked_length_of catalogue.now cols)) }
        requires light { (k : Key) → asked_length_of catalogue.now cols k ≤ 2 ^ 48 }
        requires lists { lists_before (asked_length_of catalogue.now cols) form.leaves ≤ 2 ^ 48 }
        ensures nodes { IfOk result (λ p. p.nodes ≡ nodes_of (ground_with form.leaves form.arity form.memory bases.now (asked_length_of catalogue.now cols))) }
        ensures edges { IfOk result (λ p. p.edges ≡ edges_of (ground_with form.leaves form.arity form.memory bases.now (asked_length_of catalogue.now cols))) }
        ensures reached { IfOk result (λ p. AllHaveLeast (arcs_of p.edges) (Root ∷ [])) }
    {
        let edges = build_edges(alloc, form, bases, catalogue, cols)?;
        let starts = level_starts(alloc, form.leaves, form.arity)?;
        let links = make_links(alloc, form, &starts, &edges)?;
        if links.len() >= u32::MAX as usize {
            return Err(AllocError);
        }
        let nodes = node_count(form, &starts) as usize;
        let outs = thread(alloc, &links, nodes, true)?;
        let ins = thread(alloc, &links, nodes, false)?;
        let costs = costs_from(alloc, &links, &outs.first, &outs.next, nodes, 0)?;
        Ok(Planner {
            form,
            edges,
            starts,
            links,
            outs,
            ins,
            costs,
        })
    }

    /// The edges, in their order: the number of each is its index.
    pub fn edges(&self) -> &[Edge]
        ensures { result.now ≡ self.now.edges }
    {
        &self.edges
    }

    /// The nodes, in their order. They are listed anew by each call.
    pub fn nodes(&self, alloc: Global) -> Result<Vec<NodeId>, AllocError>
        ensures { IfOk result (λ v. v.items ≡ self.now.nodes) }
    {
        list_nodes(alloc, self.form)
    }

    /// The plan of a node from the root: the numbers of its edges, its weight in bytes, and for each node
    /// in the order of nodes its potential, which is its least weight, cut at the weight of the plan. The
    /// plan is read back from the costs that are kept. Every node has a plan of 29 * 2^48 bytes at the most, and the
    /// potentials certify it.
    pub fn plan(&self, alloc: Global, target: NodeId) -> Result<Route, AllocError>
        requires target { Contains self.now.nodes target }
        ensures plan { IfOk result (λ r. IsPlan (arcs_of self.now.edges) (Root ∷ []) target r.steps.items) }
        ensures weight { IfOk result (λ r. r.weight ≡ weight_of (arcs_of self.now.edges) r.steps.items) }
        ensures potentials { IfOk result (λ r. AllZip (IsPotential (arcs_of self.now.edges) (Root ∷ []) r.weight) self.now.nodes r.potentials.items) }
        ensures least { IfOk result (λ r. (others : List ℕ) → Leads (arcs_of self.now.edges) Root others target → r.weight ≤ weight_of (arcs_of self.now.edges) others) }
        ensures steps { IfOk result (λ r. All (λ i. i < length self.now.edges) r.steps.items) }
        ensures near { IfOk result (λ r. r.weight ≤ FARTHEST) }

        // The potentials certify the plan; and a node of which none is listed has no least weight below the plan's.
        ensures certificate { IfOk result (λ r. IsCertificate (arcs_of self.now.edges) Root target (potential_in r.weight (zip self.now.nodes r.potentials.items)) r.steps.items r.weight) }
        ensures everywhere { IfOk result (λ r. ArePotentials (arcs_of self.now.edges) (Root ∷ []) r.weight (potential_in r.weight (zip self.now.nodes r.potentials.items))) }
    {
        let node_index = node_index(self.form, &self.starts, target);
        route_to(alloc, &self.links, &self.ins, &self.costs, node_index)
    }

    /// The tree of several targets, 32 at the most: for each in order the plan that begins at the nearest
    /// node of the tree so far. It weighs no more than the targets' single plans together, and enters no
    /// record twice. Behind each target but the last the costs are searched on from the nodes that it adds.
    pub fn plan_several(&self, alloc: Global, targets: &[NodeId]) -> Result<Tree, AllocError>
        requires targets { All (Contains self.now.nodes) targets.now }
        requires few { length targets.now ≤ 32 }
        ensures tree { IfOk result (λ t. IsTree (arcs_of self.now.edges) (Root ∷ []) targets.now (grafts_in t)) }
        ensures singles { IfOk result (λ t. AreSingles (arcs_of self.now.edges) (Root ∷ []) targets.now t.singles.items) }
        ensures weight { IfOk result (λ t. t.weight ≡ tree_weight (arcs_of self.now.edges) (grafts_in t)) }
        ensures sum { IfOk result (λ t. t.sum ≡ sum t.singles.items) }
        ensures shared { IfOk result (λ t. t.weight ≤ sum t.singles.items) }
        ensures light { IfOk result (λ t. t.weight ≤ TREE_WEIGHT_MAX) }
        ensures light_sum { IfOk result (λ t. t.sum ≤ TREE_WEIGHT_MAX) }
        ensures once { IfOk result (λ t. EntersOnce self.now.edges (steps_of (grafts_in t))) }
    {
        let Singles { weights, sum } = self.singles_of(alloc, targets)?;
        let Grown { grafts, weight } = self.grafts_of(alloc, targets)?;
        Ok(Tree {
            grafts,
            weight,
            singles: weights,
            sum,
        })
    }

    // What the plan of each target from the root weighs.
    fn singles_of(&self, alloc: Global, targets: &[NodeId]) -> Result<Singles, AllocError>
        requires targets { All (Contains self.now.nodes) targets.now }
        requires few { length targets.now ≤ 32 }
        ensures are { IfOk result (λ s. AreSingles (arcs_of self.now.edges) (Root ∷ []) targets.now s.weights.items) }
        ensures sum { IfOk result (λ s. s.sum ≡ sum s.weights.items) }
        ensures light { IfOk result (λ s. s.sum ≤ TREE_WEIGHT_MAX) }
    {
        let mut weights = Vec::with_capacity(alloc, targets.len())?;
        let mut sum = 0;
        for target in targets {
            let at = node_index(self.form, &self.starts, *target);
            let single = weight_at(&self.costs, at);
            weights.push(single)?;
            sum += single;
        }
        Ok(Singles { weights, sum })
    }

    // The tree of the targets.
    fn grafts_of(&self, alloc: Global, targets: &[NodeId]) -> Result<Grown, AllocError>
        requires targets { All (Contains self.now.nodes) targets.now }
        requires few { length targets.now ≤ 32 }
        ensures tree { IfOk result (λ x. IsTree (arcs_of self.now.edges) (Root ∷ []) targets.now (node_grafts x.grafts.items)) }
        ensures weight { IfOk result (λ x. x.weight ≡ tree_weight (arcs_of self.now.edges) (node_grafts x.grafts.items)) }
        ensures light { IfOk result (λ x. x.weight ≤ TREE_WEIGHT_MAX) }
        ensures once { IfOk result (λ x. EntersOnce self.now.edges (steps_of (node_grafts x.grafts.items))) }
    {
        // The costs from the tree so far, once it has grown.
        let mut grown = Vec::new(alloc);
        let mut grafts = Vec::with_capacity(alloc, targets.len())?;
        let mut weight = 0;
        for (i, target) in targets.iter().enumerate() {
            let at = node_index(self.form, &self.starts, *target);
            let costs = costs_now(&self.costs, &grown);
            let nearest = weight_at(costs, at);
            weight += nearest;
            let graft = graft_at(
                alloc,
                &self.edges,
                &self.links,
                &self.ins,
                costs,
                at,
                *target,
            )?;
            // Behind the last target no plan follows that needs the costs.
            if i + 1 < targets.len() {
                let kept = &self.costs;
                grow_on(
                    alloc,
                    &self.links,
                    &self.outs,
                    kept,
                    &graft.steps,
                    &mut grown,
                )?;
            }
            grafts.push(graft)?;
        }
        Ok(Grown { grafts, weight })
    }
}
