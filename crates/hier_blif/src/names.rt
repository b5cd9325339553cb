//! The names of models, checked kind by kind: each check answers the first fault of its kind, or that there is none.

ghost use Rattle.std.specs.Prelude.{◌≡◌, ◌<◌, ◌&&◌, ◌∷◌, ◌++◌, ℕ, Bool, List, [], Some, not, if◌then◌else◌};
ghost use Rattle.std.specs.Prelude.{map, filter, length, slice_get, position, IfOk, OnOk};
ghost use Rattle.std.specs.List.{AllZip, flat_map, list_all, list_any, position_or_len};
ghost use Rattle.std.specs.Str.{bytes_eq};
ghost use Rattle.text_core.specs.Piece.{Piece};
ghost use Rattle.net_file.specs.Stops.{IsStopBy as IsNetStopBy};
ghost use Rattle.blif_reader.specs.declared.survey.PortWord.{PortWord as AnyPort};
ghost use Rattle.blif_reader.specs.Names.{is_redefined};
ghost use Rattle.blif_reader.specs.Numbers.{names_of, bytes_of, IsRepeatedPort};
ghost use Rattle.hier_blif.specs.Bindings.{formal_of};
ghost use Rattle.hier_blif.specs.Stops.{IsStopBy, first_of, Finds};
ghost use Rattle.hier_blif.specs.declared.fault.HierKind.TheVariants as wrong;
ghost use Rattle.hier_blif.specs.Names.{actual, binds_port, ports_of_kind, ports_on, inputs_of, outputs_of};
ghost use Rattle.hier_blif.specs.Names.{instances_on, all_instances, is_among, has_name, defined_on, defined_in};
ghost use Rattle.hier_blif.specs.Names.{read_on, read_in};
ghost use Rattle.hier_blif.specs.NameFaults.{at_words, where_wrong, found_in, binds_again};
ghost use Rattle.hier_blif.specs.NameFaults.{is_inputs_line, is_outputs_line, port_line_faults};
ghost use Rattle.hier_blif.specs.NameFaults.{repeated_ports, port_faults, model_faults, formal_faults, unbound_faults};
ghost use Rattle.hier_blif.specs.NameFaults.{redefined_faults, undefined_faults, name_faults};
ghost use Rattle.hier_blif.specs.Scopes.{HasKeys, HasNames, HasPorts, IsScope, number_of, model_at, faults_by};
ghost use Rattle.hier_blif.specs.Scopes.{faults_of_lines};

use crate::bindings::formal_of;
use crate::fault::{HierKind, HierStop, fault_at};
use crate::model::{BlifModel, InstanceLine, ModelLine};
use crate::numbers::NameNumbers;
use crate::words::Word;
use blif_reader::{PortNames, PortWord, add_name, find_name, name_ports};
use circuits::PortKind;
use indexmap::IndexSet;
use net_file::NetStop;
use std::alloc::{AllocError, Global};
use text_core::Span;

// The models of a file, with what is looked up of them.
#[derive(Drop)]
pub(crate) struct Scope<'m, 'a> {
    pub(crate) models: &'m [BlifModel<'a>],
    // Which model has a name: the first that has it.
    places: NameNumbers<'a>,
    // The names of the ports of each model.
    ports: Vec<PortNames<'a>>,
}

// What is checked of instances, in this order.
#[derive(Clone, Copy, Drop)]
enum InstanceCheck {
    // That each is of a model.
    Models,
    // That what is bound is a port of one kind.
    Formals,
    // That no port is bound twice on a line.
    Once,
    // That each input is bound.
    Inputs,
}

/// Checks the names of a file's models: of ports, of what instances name and bind, and of what lines define and read.
/// The fault is the first of the first kind that there is.
///
/// # Errors
///
/// [`HierStop::Fault`] with that fault, of these kinds: a model without a kind of port line; a name of two ports of a
/// kind; an instance of no model; a binding of what is no port; a port that is bound twice; an input that isn't bound;
/// a name that is defined twice; a name that isn't defined. [`HierStop::Memory`] when out of memory.
pub fn check_names(alloc: Global, models: &[BlifModel<'_>]) -> Result<(), HierStop>
    ensures { Finds (name_faults models.now) result }
{
    let _scope = scope_of(alloc, models)?;
    Ok(())
}

// What is looked up of models whose names have no fault.
pub(crate) fn scope_of<'m, 'a>(
    alloc: Global,
    models: &'m [BlifModel<'a>],
) -> Result<Scope<'m, 'a>, HierStop>
    ensures names { Finds (name_faults models.now) result }
    ensures scope { IfOk result (λ scope. (scope.models.now ≡ models.now) × IsScope scope) }
{
    check_port_lines(models)?;
    let ports = name_all_ports(alloc, models)?;
    let places = model_places(alloc, models)?;
    let scope = Scope {
        models,
        places,
        ports,
    };
    scope.check(alloc)?;
    Ok(scope)
}

// That each model has both kinds of port line.
fn check_port_lines(models: &[BlifModel<'_>]) -> Result<(), HierStop>
    ensures { Finds (flat_map port_line_faults models.now) result }
{
    for model in models.iter() {
        check_port_lines_of(model)?;
    }
    Ok(())
}

fn check_port_lines_of(model: &BlifModel<'_>) -> Result<(), HierStop>
    ensures { Finds (port_line_faults model.now) result }
{
    if has_port_lines(&model.lines) {
        return Ok(());
    }
    Err(fault_at(model.at, HierKind::NoPortLine))
}

fn has_port_lines(lines: &[ModelLine<'_>]) -> bool
    ensures { result ≡ (list_any is_inputs_line lines.now && list_any is_outputs_line lines.now) }
{
    lines.iter().any(|line| is_inputs_line(line)) & lines.iter().any(|line| is_outputs_line(line))
}

fn is_inputs_line(line: &ModelLine<'_>) -> bool
    ensures { result ≡ is_inputs_line line.now }
{
    matches!(line, ModelLine::Inputs(_))
}

fn is_outputs_line(line: &ModelLine<'_>) -> bool
    ensures { result ≡ is_outputs_line line.now }
{
    matches!(line, ModelLine::Outputs(_))
}

// Names the ports of all models.
fn name_all_ports<'a>(
    alloc: Global,
    models: &[BlifModel<'a>],
) -> Result<Vec<PortNames<'a>>, HierStop>
    ensures faults { Finds (flat_map port_faults models.now) result }
    ensures named { IfOk result (λ ports. AllZip HasPorts models.now ports.items) }
{
    let mut all = Vec::new(alloc);
    for model in models.iter() {
        all.push(name_ports_of(alloc, model)?)?;
    }
    Ok(all)
}

fn name_ports_of<'a>(alloc: Global, model: &BlifModel<'a>) -> Result<PortNames<'a>, HierStop>
    ensures faults { Finds (port_faults model.now) result }
    ensures named { IfOk result (λ ports. HasPorts model.now ports) }
{
    let ports = ports_of(alloc, &model.lines)?;
    match name_ports(alloc, &ports) {
        Ok(named) => Ok(named),
        Err(stop) => Err(port_stop(stop)),
    }
}

// The stop for two ports of one name.
fn port_stop(stop: NetStop) -> HierStop
    ensures { (ports : List AnyPort) → IsNetStopBy (IsRepeatedPort ports) stop
        → IsStopBy (λ fault. first_of (repeated_ports ports) ≡ Some fault) result }
{
    match stop {
        NetStop::Fault(fault) => fault_at(fault.at, HierKind::DuplicatePort),
        NetStop::Memory => HierStop::Memory,
    }
}

// The words that name ports, in the order of the text.
fn ports_of<'a>(alloc: Global, lines: &[ModelLine<'a>]) -> Result<Vec<PortWord<'a>>, AllocError>
    ensures { IfOk result (λ ports. ports.items ≡ flat_map ports_on lines.now) }
{
    let mut ports = Vec::new(alloc);
    for line in lines.iter() {
        add_ports_on(line, &mut ports)?;
    }
    Ok(ports)
}

fn add_ports_on<'a>(line: &ModelLine<'a>, ports: &mut Vec<PortWord<'a>>) -> Result<(), AllocError>
    ensures { OnOk result (ports.new.items ≡ ports.old.items ++ ports_on line.now) }
{
    match line {
        ModelLine::Inputs(words) => add_ports(PortKind::Input, words, ports),
        ModelLine::Outputs(words) => add_ports(PortKind::Output, words, ports),
        _ => Ok(()),
    }
}

fn add_ports<'a>(
    kind: PortKind,
    words: &[Span<'a>],
    ports: &mut Vec<PortWord<'a>>,
) -> Result<(), AllocError>
    ensures { OnOk result (ports.new.items ≡ ports.old.items
        ++ map (λ word. record { kind = kind; word = word }) words.now) }
{
    for word in words.iter() {
        ports.push(PortWord {
            kind,
            word: copy_word(word),
        })?;
    }
    Ok(())
}

fn copy_word<'a>(word: &Span<'a>) -> Span<'a>
    ensures { result ≡ word.now }
{
    word.front(word.bytes().len())
}

// Which model has a name.
fn model_places<'a>(alloc: Global, models: &[BlifModel<'a>]) -> Result<NameNumbers<'a>, AllocError>
    ensures { IfOk result (λ places. (name : List ℕ) → number_of places name ≡ position (has_name name) models.now) }
{
    let mut places = NameNumbers::new(alloc);
    for (place, model) in models.iter().enumerate() {
        places.put(model.name.bytes(), place as u64)?;
    }
    Ok(places)
}

impl<'m, 'a> Scope<'m, 'a> {
    // Where the model of an instance stands among the models: after the last where it is of none of them.
    pub(crate) fn place_of(&self, line: &InstanceLine<'_>) -> usize
        requires { IsScope self.now }
        ensures { result ≡ position_or_len (has_name line.now.model.bytes) self.now.models.now }
    {
        match self.places.get(line.model.bytes()) {
            Some(place) => place as usize,
            None => self.models.len(),
        }
    }

    /// The lines of the model at a place.
    pub(crate) fn lines_at(&self, place: usize) -> &[ModelLine<'a>]
        requires { place < length self.now.models.now }
        ensures { result.now ≡ (model_at self.now.models.now place).lines }
    {
        self.models[place].lines.as_slice()
    }

    /// The names of the inputs of the model at a place, in the order of the text.
    pub(crate) fn input_names(&self, place: usize) -> &IndexSet<&'a [u8]>
        requires scope { IsScope self.now }
        requires there { place < length self.now.models.now }
        ensures { names_of result.now ≡ bytes_of (inputs_of (model_at self.now.models.now place)) }
    {
        &self.ports[place].inputs
    }

    /// The names of the outputs of the model at a place, in the order of the text.
    pub(crate) fn output_names(&self, place: usize) -> &IndexSet<&'a [u8]>
        requires scope { IsScope self.now }
        requires there { place < length self.now.models.now }
        ensures { names_of result.now ≡ bytes_of (outputs_of (model_at self.now.models.now place)) }
    {
        &self.ports[place].outputs
    }

    // Whether what a word binds is an input of the model at a place.
    pub(crate) fn is_input(&self, place: usize, word: &Span<'_>) -> bool
        requires { IsScope self.now }
        ensures { result ≡ is_among (formal_of word.now.bytes) (inputs_of (model_at self.now.models.now place)) }
    {
        match self.ports.get(place) {
            Some(ports) => is_one_of(&ports.inputs, formal_of(word.bytes())),
            None => false,
        }
    }

    // Whether what a word binds is an output of the model at a place.
    pub(crate) fn is_output(&self, place: usize, word: &Span<'_>) -> bool
        requires { IsScope self.now }
        ensures { result ≡ is_among (formal_of word.now.bytes) (outputs_of (model_at self.now.models.now place)) }
    {
        match self.ports.get(place) {
            Some(ports) => is_one_of(&ports.outputs, formal_of(word.bytes())),
            None => false,
        }
    }

    // Whether what a word binds is a port of a kind of the model at a place.
    fn is_port(&self, kind: PortKind, place: usize, word: &Span<'_>) -> bool
        requires { IsScope self.now }
        ensures { result ≡ is_among (formal_of word.now.bytes)
            (ports_of_kind kind (model_at self.now.models.now place)) }
    {
        match kind {
            PortKind::Input => self.is_input(place, word),
            PortKind::Output => self.is_output(place, word),
        }
    }

    // Checks what instances name, and then what models define and read.
    fn check(&self, alloc: Global) -> Result<(), HierStop>
        requires { IsScope self.now }
        ensures { Finds (faults_of_lines self.now.models.now) result }
    {
        self.check_instances(alloc, InstanceCheck::Models)?;
        self.check_instances(alloc, InstanceCheck::Formals)?;
        self.check_instances(alloc, InstanceCheck::Once)?;
        self.check_instances(alloc, InstanceCheck::Inputs)?;
        let names = self.number_names(alloc)?;
        self.check_read(alloc, &names)
    }

    // Checks the instances of all models.
    fn check_instances(&self, alloc: Global, check: InstanceCheck) -> Result<(), HierStop>
        requires { IsScope self.now }
        ensures { Finds (flat_map (faults_by check self.now.models.now) (all_instances self.now.models.now)) result }
    {
        for model in self.models.iter() {
            self.check_instances_on(alloc, check, &model.lines)?;
        }
        Ok(())
    }

    // Checks the instances on lines.
    fn check_instances_on(
        &self,
        alloc: Global,
        check: InstanceCheck,
        lines: &[ModelLine<'_>],
    ) -> Result<(), HierStop>
        requires { IsScope self.now }
        ensures { Finds (flat_map (faults_by check self.now.models.now) (flat_map instances_on lines.now)) result }
    {
        for line in lines.iter() {
            self.check_line(alloc, check, line)?;
        }
        Ok(())
    }

    fn check_line(
        &self,
        alloc: Global,
        check: InstanceCheck,
        line: &ModelLine<'_>,
    ) -> Result<(), HierStop>
        requires { IsScope self.now }
        ensures { Finds (flat_map (faults_by check self.now.models.now) (instances_on line.now)) result }
    {
        match line {
            ModelLine::Instance(instance) => self.check_instance(alloc, check, instance),
            _ => Ok(()),
        }
    }

    fn check_instance(
        &self,
        alloc: Global,
        check: InstanceCheck,
        line: &InstanceLine<'_>,
    ) -> Result<(), HierStop>
        requires { IsScope self.now }
        ensures { Finds (faults_by check self.now.models.now line.now) result }
    {
        match check {
            InstanceCheck::Models => self.check_model(line),
            InstanceCheck::Formals => self.check_formals(line),
            InstanceCheck::Once => check_once(alloc, &line.bindings),
            InstanceCheck::Inputs => self.check_inputs(alloc, line),
        }
    }

    // That an instance is of a model.
    fn check_model(&self, line: &InstanceLine<'_>) -> Result<(), HierStop>
        requires { IsScope self.now }
        ensures { Finds (model_faults self.now.models.now line.now) result }
    {
        if self.place_of(line) < self.models.len() {
            return Ok(());
        }
        Err(fault_at(line.model.at(), HierKind::NoModel))
    }

    // That what is bound is a port of one kind.
    fn check_formals(&self, line: &InstanceLine<'_>) -> Result<(), HierStop>
        requires { IsScope self.now }
        ensures { Finds (formal_faults self.now.models.now line.now) result }
    {
        let place = self.place_of(line);
        for word in line.bindings.iter() {
            if self.is_input(place, word) == self.is_output(place, word) {
                return Err(fault_at(word.at(), HierKind::Formal));
            }
        }
        Ok(())
    }

    // That each input is bound.
    fn check_inputs(&self, alloc: Global, line: &InstanceLine<'_>) -> Result<(), HierStop>
        requires { IsScope self.now }
        ensures { Finds (unbound_faults self.now.models.now line.now) result }
    {
        let formals = formals_of(alloc, &line.bindings)?;
        if self.binds_inputs(self.place_of(line), &formals) {
            return Ok(());
        }
        Err(fault_at(line.at, HierKind::Unbound))
    }

    // Whether all inputs of the model at a place are among these names.
    fn binds_inputs(&self, place: usize, formals: &IndexSet<&[u8]>) -> bool
        requires { IsScope self.now }
        ensures { result ≡ list_all (λ input. list_any (bytes_eq input.bytes) (names_of formals.now))
            (inputs_of (model_at self.now.models.now place)) }
    {
        match self.ports.get(place) {
            Some(ports) => has_all(formals, &ports.inputs),
            None => true,
        }
    }

    // What a model's lines define, in the order of the text.
    fn defined_in(&self, alloc: Global, model: &BlifModel<'a>) -> Result<Vec<Word<'a>>, AllocError>
        requires { IsScope self.now }
        ensures { IfOk result (λ words. words.items ≡ defined_in self.now.models.now model.now) }
    {
        let mut words = Vec::new(alloc);
        for line in model.lines.iter() {
            self.add_defined_on(line, &mut words)?;
        }
        Ok(words)
    }

    fn add_defined_on(
        &self,
        line: &ModelLine<'a>,
        words: &mut Vec<Word<'a>>,
    ) -> Result<(), AllocError>
        requires { IsScope self.now }
        ensures { OnOk result (words.new.items ≡ words.old.items ++ defined_on self.now.models.now line.now) }
    {
        match line {
            ModelLine::Cover(cover) => Ok(words.push(Word::whole(&cover.defined))?),
            ModelLine::Instance(instance) => self.add_bound(PortKind::Output, instance, words),
            _ => Ok(()),
        }
    }

    // The names to which ports of a kind are bound.
    fn add_bound(
        &self,
        kind: PortKind,
        line: &InstanceLine<'a>,
        words: &mut Vec<Word<'a>>,
    ) -> Result<(), AllocError>
        requires { IsScope self.now }
        ensures { OnOk result (words.new.items ≡ words.old.items
            ++ map actual (filter (binds_port kind self.now.models.now line.now) line.now.bindings)) }
    {
        let place = self.place_of(line);
        for word in line.bindings.iter() {
            add_if(self.is_port(kind, place, word), word, words)?;
        }
        Ok(())
    }

    // What a model's lines read, in the order of the text.
    fn read_in(&self, alloc: Global, model: &BlifModel<'a>) -> Result<Vec<Word<'a>>, AllocError>
        requires { IsScope self.now }
        ensures { IfOk result (λ words. words.items ≡ read_in self.now.models.now model.now) }
    {
        let mut words = Vec::new(alloc);
        for line in model.lines.iter() {
            self.add_read_on(line, &mut words)?;
        }
        Ok(words)
    }

    fn add_read_on(&self, line: &ModelLine<'a>, words: &mut Vec<Word<'a>>) -> Result<(), AllocError>
        requires { IsScope self.now }
        ensures { OnOk result (words.new.items ≡ words.old.items ++ read_on self.now.models.now line.now) }
    {
        match line {
            ModelLine::Outputs(outputs) => add_words(outputs, words),
            ModelLine::Cover(cover) => add_words(&cover.operands, words),
            ModelLine::Instance(instance) => self.add_bound(PortKind::Input, instance, words),
            ModelLine::Inputs(_) => Ok(()),
        }
    }

    // The names of each model. No input of a model is defined, and no name twice.
    fn number_names(&self, alloc: Global) -> Result<Vec<IndexSet<&'a [u8]>>, HierStop>
        requires { IsScope self.now }
        ensures faults { Finds (flat_map (redefined_faults self.now.models.now) self.now.models.now) result }
        ensures names { IfOk result
            (λ names. AllZip (HasNames self.now.models.now) self.now.models.now names.items) }
    {
        let mut all = Vec::new(alloc);
        for (place, model) in self.models.iter().enumerate() {
            all.push(self.number_names_of(alloc, place, model)?)?;
        }
        Ok(all)
    }

    fn number_names_of(
        &self,
        alloc: Global,
        place: usize,
        model: &BlifModel<'a>,
    ) -> Result<IndexSet<&'a [u8]>, HierStop>
        requires scope { IsScope self.now }
        requires there { slice_get self.now.models.now place ≡ Some model.now }
        ensures faults { Finds (redefined_faults self.now.models.now model.now) result }
        ensures names { IfOk result (λ names. HasNames self.now.models.now model.now names) }
    {
        let defined = self.defined_in(alloc, model)?;
        let mut names = copy_of(alloc, &self.ports[place].inputs)?;
        add_defined(&mut names, &defined)?;
        Ok(names)
    }

    // That each name that is read is known in its model.
    fn check_read(&self, alloc: Global, names: &[IndexSet<&'a [u8]>]) -> Result<(), HierStop>
        requires scope { IsScope self.now }
        requires names { AllZip (HasNames self.now.models.now) self.now.models.now names.now }
        ensures { Finds (flat_map (undefined_faults self.now.models.now) self.now.models.now) result }
    {
        for (place, model) in self.models.iter().enumerate() {
            self.check_read_of(alloc, model, &names[place])?;
        }
        Ok(())
    }

    fn check_read_of(
        &self,
        alloc: Global,
        model: &BlifModel<'a>,
        names: &IndexSet<&'a [u8]>,
    ) -> Result<(), HierStop>
        requires scope { IsScope self.now }
        requires names { HasNames self.now.models.now model.now names.now }
        ensures { Finds (undefined_faults self.now.models.now model.now) result }
    {
        let read = self.read_in(alloc, model)?;
        check_known(names, &read)
    }
}

// That no port is bound twice on a line.
fn check_once(alloc: Global, words: &[Span<'_>]) -> Result<(), HierStop>
    ensures { Finds (at_words wrong.FormalTwice (found_in binds_again words.now)) result }
{
    let mut formals = IndexSet::new(alloc);
    for word in words.iter() {
        if !add_name(&mut formals, formal_of(word.bytes()))? {
            return Err(fault_at(word.at(), HierKind::FormalTwice));
        }
    }
    Ok(())
}

// The ports that are bound on a line.
fn formals_of<'a>(alloc: Global, words: &[Span<'a>]) -> Result<IndexSet<&'a [u8]>, AllocError>
    ensures { IfOk result (λ formals. HasKeys (λ word. formal_of word.bytes) words.now (names_of formals)) }
{
    let mut formals = IndexSet::new(alloc);
    for word in words.iter() {
        let _added = add_name(&mut formals, formal_of(word.bytes()))?;
    }
    Ok(formals)
}

// Whether all of these names are there.
fn has_all(names: &IndexSet<&[u8]>, required: &IndexSet<&[u8]>) -> bool
    ensures { result ≡ list_all (λ name. list_any (bytes_eq name) (names_of names.now)) (names_of required.now) }
{
    required
        .as_slice()
        .iter()
        .all(|name| is_one_of(names, *name))
}

// Whether a name is one of these.
fn is_one_of(names: &IndexSet<&[u8]>, name: &[u8]) -> bool
    ensures { result ≡ list_any (bytes_eq name.now) (names_of names.now) }
{
    find_name(names, name).is_some()
}

fn copy_of<'a>(alloc: Global, names: &IndexSet<&'a [u8]>) -> Result<IndexSet<&'a [u8]>, AllocError>
    ensures { IfOk result (λ copy. HasKeys (λ name. name.now) names.now.keys (names_of copy)) }
{
    let mut copy = IndexSet::new(alloc);
    for name in names.as_slice().iter() {
        let _added = add_name(&mut copy, *name)?;
    }
    Ok(copy)
}

// Adds the name to which a word binds a port, if it is to be added.
fn add_if<'a>(is_added: bool, word: &Span<'a>, words: &mut Vec<Word<'a>>) -> Result<(), AllocError>
    ensures { OnOk result
        (words.new.items ≡ words.old.items ++ (if is_added then actual word.now ∷ [] else [])) }
{
    if is_added {
        words.push(Word::bound(word))?;
    }
    Ok(())
}

fn add_words<'a>(from: &[Span<'a>], words: &mut Vec<Word<'a>>) -> Result<(), AllocError>
    ensures { OnOk result (words.new.items ≡ words.old.items ++ from.now) }
{
    for word in from.iter() {
        words.push(Word::whole(word))?;
    }
    Ok(())
}

fn add_defined<'a>(names: &mut IndexSet<&'a [u8]>, defined: &[Word<'a>]) -> Result<(), HierStop>
    ensures faults { (inputs : List Piece) → HasKeys (λ word. word.bytes) inputs (names_of names.old)
        → Finds (at_words wrong.Redefined (found_in (is_redefined inputs) defined.now)) result }
    ensures names { (inputs : List Piece) → HasKeys (λ word. word.bytes) inputs (names_of names.old)
        → OnOk result (HasKeys (λ word. word.bytes) (inputs ++ defined.now) (names_of names.new)) }
{
    for word in defined.iter() {
        if !add_name(names, word.bytes())? {
            return Err(fault_at(word.at(), HierKind::Redefined));
        }
    }
    Ok(())
}

fn check_known(names: &IndexSet<&[u8]>, read: &[Word<'_>]) -> Result<(), HierStop>
    ensures { (test : Piece → Bool)
        → ((word : Piece) → test word ≡ not (list_any (bytes_eq word.bytes) (names_of names.now)))
        → Finds (where_wrong wrong.Undefined test read.now) result }
{
    for word in read.iter() {
        if !is_one_of(names, word.bytes()) {
            return Err(fault_at(word.at(), HierKind::Undefined));
        }
    }
    Ok(())
}
