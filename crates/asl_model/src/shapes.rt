//! The data flow of states that have only some fields of a shape.

ghost use Rattle.std.specs.Prelude.{◌≡◌, IsTrue};
ghost use Rattle.asl_model.specs.Shapes.{HasNoSelector, HasPathsOnly, HasNoParameters};

use asl_paths::Template;
use asl_shape::Shape;
use std::marker::Model;

/// The data flow of a Pass, which has no ResultSelector.
///
/// Source: Amazon States Language, "Pass State" and the table of fields in "State Types".
#[derive(Drop)]
pub struct PassShape {
    shape: Shape,
}

impl Model for PassShape {
    ghost use Rattle.std.specs.Coded.{codes};
    ghost use Rattle.asl_shape.specs.Stages.{Stages};
    ghost use Rattle.asl_shape.specs.contracts.shape.Shape as flow;
    ghost use Rattle.asl_model.specs.Shapes.{HasNoSelector};

    ghost Value = { Stages };

    ghost coded = { Prim.hlevel (codes, flow.the_row.coded) };

    ghost view = { λ s. s.shape };

    ghost invariant = { λ s. HasNoSelector s.shape };
}

impl PassShape {
    /// The data flow of a shape that has no ResultSelector.
    pub fn from_shape(shape: Shape) -> PassShape
        requires { HasNoSelector shape }
        ensures { result ≡ shape }
    {
        PassShape { shape }
    }

    /// The shape that it is.
    pub fn shape(&self) -> &Shape
        ensures value { result.now ≡ self.now }
        ensures fits { HasNoSelector self.now }
    {
        &self.shape
    }
}

/// The data flow of a Choice or a Succeed, which has InputPath and OutputPath alone.
///
/// Source: Amazon States Language, "Choice State", "Succeed State" and the table of fields in "State Types".
#[derive(Drop)]
pub struct PathShape {
    shape: Shape,
}

impl Model for PathShape {
    ghost use Rattle.std.specs.Coded.{codes};
    ghost use Rattle.asl_shape.specs.Stages.{Stages};
    ghost use Rattle.asl_shape.specs.contracts.shape.Shape as flow;
    ghost use Rattle.asl_model.specs.Shapes.{HasPathsOnly};

    ghost Value = { Stages };

    ghost coded = { Prim.hlevel (codes, flow.the_row.coded) };

    ghost view = { λ s. s.shape };

    ghost invariant = { λ s. HasPathsOnly s.shape };
}

impl PathShape {
    /// The data flow of a shape that has no field but InputPath and OutputPath.
    pub fn from_shape(shape: Shape) -> PathShape
        requires { HasPathsOnly shape }
        ensures { result ≡ shape }
    {
        PathShape { shape }
    }

    /// The shape that it is.
    pub fn shape(&self) -> &Shape
        ensures value { result.now ≡ self.now }
        ensures fits { HasPathsOnly self.now }
    {
        &self.shape
    }
}

/// The data flow of a Map, whose Parameters stand in its item template.
///
/// Source: Amazon States Language, "Map State" and the table of fields in "State Types".
#[derive(Drop)]
pub struct MapShape {
    shape: Shape,
}

impl Model for MapShape {
    ghost use Rattle.std.specs.Coded.{codes};
    ghost use Rattle.asl_shape.specs.Stages.{Stages};
    ghost use Rattle.asl_shape.specs.contracts.shape.Shape as flow;
    ghost use Rattle.asl_model.specs.Shapes.{HasNoParameters};

    ghost Value = { Stages };

    ghost coded = { Prim.hlevel (codes, flow.the_row.coded) };

    ghost view = { λ s. s.shape };

    ghost invariant = { λ s. HasNoParameters s.shape };
}

impl MapShape {
    /// The data flow of a shape that has no Parameters.
    pub fn from_shape(shape: Shape) -> MapShape
        requires { HasNoParameters shape }
        ensures { result ≡ shape }
    {
        MapShape { shape }
    }

    /// The shape that it is.
    pub fn shape(&self) -> &Shape
        ensures value { result.now ≡ self.now }
        ensures fits { HasNoParameters self.now }
    {
        &self.shape
    }
}

/// The item template of a Map, which was read with the paths into an item.
///
/// Source: Amazon States Language, "ItemSelector".
#[derive(Drop)]
pub struct ItemTemplate {
    template: Template,
}

impl Model for ItemTemplate {
    ghost use Rattle.std.specs.Coded.{codes};
    ghost use Rattle.std.specs.Prelude.{◌≡◌, true};
    ghost use Rattle.asl_paths.specs.declared.template.Template.{Template};
    ghost use Rattle.asl_paths.specs.contracts.template.Template as whole;

    ghost Value = { Template };

    ghost coded = { Prim.hlevel (codes, whole.the_row.coded) };

    ghost view = { λ t. t.template };

    ghost invariant = { λ t. t.template.item ≡ true };
}

impl ItemTemplate {
    /// The item template that a template is, which was read with the paths into an item.
    pub fn from_template(template: Template) -> ItemTemplate
        requires { IsTrue template.item }
        ensures { result ≡ template }
    {
        ItemTemplate { template }
    }

    /// The template that it is.
    pub fn template(&self) -> &Template
        ensures value { result.now ≡ self.now }
        ensures item { IsTrue self.now.item }
    {
        &self.template
    }
}
